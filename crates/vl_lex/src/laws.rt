ghost use Rattle.std.specs.Prelude.{◌≡◌, ℕ, Bool, ◌≤◌, Ok, Err, List, ◌++◌, length};
ghost use Rattle.bits_core.specs.declared.names.File.{File};
ghost use Rattle.vl_lex.specs.declared.gate.Halt.TheVariants as h;
ghost use Rattle.vl_lex.specs.Bytes.{Text};
ghost use Rattle.vl_lex.specs.Lexed.{Seen, Placed, Lexed, beginning, file_tokens};
ghost use Rattle.vl_lex.specs.Forms.{Cut};
ghost use Rattle.vl_lex.specs.Walk.{SState, SBranches, Step, predefined, start, step, kept};
ghost use Rattle.vl_lex.specs.Gate.{SGate};
ghost use Rattle.vl_lex.specs.Macros.{Table, expanded};
ghost use Rattle.vl_lex.specs.Expansion.{Covers, Expands, IsBounded};
ghost use Rattle.vl_lex.specs.Shelves.{AsksNothing, IsAbsent};
ghost use Rattle.vl_lex.specs.Places.{AreSlices, AreSlicesOf, InOrder, tokens_of};

/// The bytes of a file are white space, comments and tokens one after the other, each the longest that fits.
#[tactic(auto, using(crate::proofs::Cuts::cuts_file))]
pub fn cuts_into_longest()
    ensures { (file : ℕ) (text : Text) → Cut file beginning text (file_tokens file text) }
{}

/// They are cut so in one way alone.
#[tactic(auto, using(crate::proofs::Definite::cut_is_file))]
pub fn cuts_in_one_way()
    ensures { (file : ℕ) (text : Text) (l : Lexed) → Cut file beginning text l → l ≡ file_tokens file text }
{}

/// Each token of a file is the slice that its span says, on its line, and the tokens stand in order.
#[tactic(auto, using(crate::proofs::Places::file_slices, crate::proofs::Places::file_order))]
pub fn tokens_are_slices()
    ensures slices { (file : ℕ) (text : Text) → AreSlices file text (tokens_of (file_tokens file text).tokens) }
    ensures order { (file : ℕ) (text : Text) → InOrder 0 (tokens_of (file_tokens file text).tokens) }
{}

/// Files behind those that the walk was over change nothing where it asked for none.
#[tactic(auto, using(crate::proofs::Shelves::more_files))]
pub fn further_files_change_nothing()
    ensures { (files further : List File) (named : ℕ) (defines : List Text) → named ≤ length files → AsksNothing (kept files named defines) → kept (files ++ further) named defines ≡ kept files named defines }
{}

/// Each kept token is the slice that its span says, of the file that its span names.
#[tactic(auto, using(crate::proofs::Slices::kept_slices))]
pub fn kept_tokens_are_slices()
    ensures { (files : List File) (named : ℕ) (defines : List Text) (tokens : List Seen) → kept files named defines ≡ Ok tokens → AreSlicesOf files tokens }
{}

/// A file that is asked for has a name that the files lack.
pub fn asks_for_absent_files()
    ensures { (files : List File) (named : ℕ) (defines : List Text) (name : Text) → kept files named defines ≡ Err (h.Need name) → IsAbsent name files }
{}

/// Where the bound is no less than the number of macros, an expansion is the one that has no bound.
#[tactic(auto, using(crate::proofs::Unbounded::reaches))]
pub fn expands_without_bound()
    ensures { (bound : ℕ) (table : Table) (names : List Text) (implicit : Bool) (body : List Seen) (gate : SGate) → Covers table names → length names ≤ bound → Expands implicit table body gate (expanded bound table implicit body gate) }
{}

/// The walk's own bound is so, from its start and from token to token.
#[tactic(auto, using(crate::proofs::Counted::start_bounded, crate::proofs::Counted::step_bounded))]
pub fn macros_are_counted()
    ensures start { (defines listed : List Text) → IsBounded (predefined defines (start listed)) }
    ensures step { (levels : ℕ) (files : List File) (branches : SBranches) (state : SState) (token : Placed) (behind : List Placed) (reached : Step) → IsBounded state → step levels files branches state token behind ≡ Ok reached → IsBounded reached.state }
{}
