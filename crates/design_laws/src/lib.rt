//! Laws of designs: what values and bodies depend on, one settled assignment, sound cuts, slices that decide, launches that are free.
//! Each is a function with an empty body whose contract is the law.
#![tactic(auto)]

ghost use Rattle.std.specs.Prelude.{ℕ, List};
ghost use Rattle.design_core.specs.declared.place.BitRef.{BitRef};
ghost use Rattle.design_laws.specs.Coverage.{CoversAlways};
ghost use Rattle.design_laws.specs.Trees.{NumberIsPlace, NumberOnce, NumberOrder, ItemHasBits, DesignHasBits, ItemKeepsKind, DesignKeepsKind, ExprIsRenumbered, LeftIsRenumbered, StmtIsRenumbered, RenumberedSame, ItemByNames, ItemNamesOwn, ItemOverMore};
ghost use Rattle.design_laws.specs.Prints.{BitsPrintApart};
ghost use Rattle.design_laws.specs.Laws.{ValueByReads, ExecByReads, ExecByDrives, CaseCovers, SettlesOnce, SettledPlain, NextPlain, ReadsPlain, CutIsOrdered, CutIsSound, SliceIsClosed, SliceIsOne, SliceDecides, SliceFirst, SliceAlone, NamesDecide, NamesFirst, OrderIsFree, RunHasWindow, BitsDecide, HeldAreInputs, NeedsDecide, FreeLaunch, FreeBySet, ItemsFit, ItemsWeigh, SilentReadsNothing, TraceIsComputed, OrderIsCut, CutIsPart, PartIsSound, UnblockedHits, QuerySees, TraceExists, ItemIsLawful};

/// Values and bodies depend on the bits that they read alone, and a body changes the bits that it drives alone.
pub fn bodies_by_bits()
    ensures value { ValueByReads }
    ensures exec { ExecByReads }
    ensures drives { ExecByDrives }
{}

/// A `case` of which some item always matches may take its last arm untested, and a test over all values of the selector tells that.
pub fn case_covers()
    ensures untested { CaseCovers }
    ensures always { CoversAlways }
{}

/// In an ordered design the stored bits and the inputs fix all other bits: one assignment is settled, and no second one.
pub fn settles_once()
    ensures { SettlesOnce }
{}

/// Settled assignments and the next state in the language's own words: items leave the assignment as it is, and a register takes the last write to it.
pub fn cells_are_plain()
    ensures settled { SettledPlain }
    ensures next { NextPlain }
    ensures reads { ReadsPlain }
{}

/// A cut of an ordered design is one too, and a row that is valid in the cut, or in any part, is valid in the whole.
pub fn cut_is_sound()
    ensures ordered { CutIsOrdered }
    ensures order { OrderIsCut }
    ensures part { CutIsPart }
    ensures parts { PartIsSound }
    ensures valid { CutIsSound }
{}

/// Where no closed box blocks a query, what can be hit in the cut can be hit in the whole.
pub fn unblocked_breaks()
    ensures { UnblockedHits }
{}

/// The slice is the least closed part; with the bits that it reads it is closed, and it is one.
pub fn slice_is_least()
    ensures closed { SliceIsClosed }
    ensures one { SliceIsOne }
{}

/// The slice decides: designs with the same slice let a row break, or conditions be met, both or neither, with the same first values.
pub fn slice_decides()
    ensures sees { QuerySees }
    ensures breaks { SliceDecides }
    ensures first { SliceFirst }
    ensures alone { SliceAlone }
{}

/// The slice decides by the names of bits, where a name is the bytes of a path and a place, or a bit under another number.
pub fn names_decide()
    ensures breaks { NamesDecide (List ℕ × ℕ) }
    ensures first { NamesFirst (List ℕ × ℕ) }
    ensures breaks_renumbered { NamesDecide BitRef }
    ensures first_renumbered { NamesFirst BitRef }
{}

/// The order of items does not matter to what can break.
pub fn order_is_free()
    ensures { OrderIsFree }
{}

/// A valid row holds at every launch of every run, and a row breaks where one of its bits does.
pub fn runs_and_bits()
    ensures run { RunHasWindow }
    ensures bits { BitsDecide }
    ensures held { HeldAreInputs }
{}

/// A launch-free row that breaks in a window breaks in a run at the first launch.
pub fn free_launch()
    ensures needs { NeedsDecide }
    ensures breaks { FreeLaunch }
    ensures by_set { FreeBySet }
{}

/// Each item of a design is formed and weighs what it carries, and its reset branch reads no signal.
pub fn designs_keep()
    ensures fit { ItemsFit }
    ensures weigh { ItemsWeigh }
    ensures silent { SilentReadsNothing }
{}

/// Two windows or runs of a checked design with the same first state and the same inputs are the same, and each first state and inputs have one.
pub fn traces_are_computed()
    ensures one { TraceIsComputed }
    ensures some { TraceExists }
{}

/// A checked item is a lawful cell: what it gives depends on the bits that it reads, and on the stored value of the bit itself.
pub fn items_are_lawful()
    ensures { ItemIsLawful }
{}

/// The numbers of bits: a bit's number is its place in the order of bits, no two bits have one, and numbers have that order.
pub fn bits_are_numbered()
    ensures place { NumberIsPlace }
    ensures once { NumberOnce }
    ensures order { NumberOrder }
{}

/// Formed items read and drive bits of the signals alone, and have writes of their own kind to signals alone.
pub fn formed_items()
    ensures bits { ItemHasBits }
    ensures design_bits { DesignHasBits }
    ensures kind { ItemKeepsKind }
    ensures design_kind { DesignKeepsKind }
{}

/// A tree under other numbers of signals is formed alike, weighs the same, and is the renamed term; under the same numbers it is itself.
/// What an item is depends on the lengths of the signals that it names alone.
pub fn trees_by_names()
    ensures expr { ExprIsRenumbered }
    ensures left { LeftIsRenumbered }
    ensures stmt { StmtIsRenumbered }
    ensures same { RenumberedSame }
    ensures item { ItemByNames }
    ensures own { ItemNamesOwn }
    ensures more { ItemOverMore }
{}

/// Distinct paths are enough for no two bits to print alike, where no path without a range is the text of a bit: nobody compares the texts of all bits.
pub fn bits_print_apart()
    ensures { BitsPrintApart }
{}
