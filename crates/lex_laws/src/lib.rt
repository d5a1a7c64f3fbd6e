//! Laws of the lexer's definitions in the words of the language: numbers, attributes, the branches of conditionals, and the expansion of macros (IEEE 1364-2005, sections 3.5, 3.8 and 19).
//! Each is the contract of a function with an empty body.
#![tactic(auto)]

ghost use Rattle.std.specs.Prelude.{◌≡◌, ℕ, Bool, false, true, List, ◌∷◌};
ghost use Rattle.bits_core.specs.declared.names.File.{File};
ghost use Rattle.vl_lex.specs.declared.branches.Branch.{Branch};
ghost use Rattle.vl_lex.specs.declared.gate.Halt.{Halt};
ghost use Rattle.vl_lex.specs.Lexed.{Seen, Placed};
ghost use Rattle.vl_lex.specs.Walk.{SBranches, SState, walked};
ghost use Rattle.vl_lex.specs.Gate.{SGate, Reached, kept_all};
ghost use Rattle.vl_lex.specs.Macros.{Table};
ghost use Rattle.vl_lex.specs.Bytes.{Text};
ghost use Rattle.vl_lex.specs.Expansion.{Covers, Expands};
ghost use Rattle.lex_laws.specs.Attributes.{Leaves, all_fed, kept_so_far};
ghost use Rattle.vl_lex.specs.Forms.{IsBasedNumber, is_decimal_number};
ghost use Rattle.lex_laws.specs.Parts.{IsDecimal, IsRead};
ghost use Rattle.lex_laws.specs.Branches.{IsHead, is_true, Nested, Further, Picks, Picked, kept_text, true_branch};

/// An attribute is dropped up to the first `*` with `)` behind it, and stays where none follows: of any tokens there is what is left without their attributes (`some`),
/// and the gate keeps that, token by token, with the first fault among those tokens or the limit on their number (`kept`).
#[tactic(auto, using(crate::proofs::Dropped::keeps_left, crate::proofs::Dropped::some_left))]
pub fn attributes_are_dropped()
    ensures some { (tokens : List Seen) → (left : List Seen) × Leaves tokens left }
    ensures kept { (tokens left before : List Seen) → Leaves tokens left → all_fed tokens (kept_so_far before) ≡ kept_all left (kept_so_far before) }
{}

/// The expansion of a body has one outcome: at most one (`one`), and one where the macros that are defined can be counted (`some`).
#[tactic(auto, using(crate::proofs::Outcomes::one_outcome))]
pub fn expansions_are_one()
    ensures one { (implicit : Bool) (table : Table) (body : List Seen) (gate : SGate) (first second : Reached SGate) → Expands implicit table body gate first → Expands implicit table body gate second → first ≡ second }
    ensures some { (implicit : Bool) (table : Table) (names : List Text) (body : List Seen) (gate : SGate) → Covers table names → (reached : Reached SGate) × Expands implicit table body gate reached }
{}

/// Of a conditional in text that is kept, the walk goes on at the text of the first true branch as if nothing stood before it (`first`), and behind that text at what stands
/// behind the `endif` (`others`); each conditional whose inner conditionals stand whole has such a branch, or the place of its `endif` where none is true (`some`).
/// Text that is not kept changes nothing (`dropped`).
#[tactic(auto, using(crate::proofs::Picked::picked_on, crate::proofs::Picked::others_off, crate::proofs::Picked::some_picked, crate::proofs::Picked::skip_nested))]
pub fn first_true_branch_is_kept()
    ensures first { (levels : ℕ) (files : List File) (inner : ℕ → SState → Reached SState) (end : Halt) (stack : List Branch) (state : SState) (head name : Placed) (behind text : List Placed) (may : Bool)
        → IsHead head name → Picks state.table (is_true state.table head name) behind text may
        → walked levels files inner end 0 (kept_text stack) state (head ∷ name ∷ behind) ≡ walked levels files inner end 0 (true_branch stack may) state text }
    ensures others { (levels : ℕ) (files : List File) (inner : ℕ → SState → Reached SState) (end : Halt) (stack : List Branch) (state : SState) (may : Bool) (further rest : List Placed)
        → Further may further rest → walked levels files inner end 0 (true_branch stack may) state further ≡ walked levels files inner end 0 (kept_text stack) state rest }
    ensures some { (table : Table) (cond : Bool) (text further rest : List Placed) → Nested text further → Further true further rest → Picked table cond text rest }
    ensures dropped { (levels : ℕ) (files : List File) (inner : ℕ → SState → Reached SState) (end : Halt) (branches : SBranches) (state : SState) (text rest : List Placed)
        → branches.active ≡ false → Nested text rest → walked levels files inner end 0 branches state text ≡ walked levels files inner end 0 branches state rest }
{}

/// The size, the sign, the base, the digits and the value that are read of a number are those of the parts of its form.
#[tactic(auto, using(crate::proofs::Read::decimal_is_read))]
pub fn numbers_are_read_by_form()
    ensures based { (text : Text) (form : IsBasedNumber text) → IsRead text form }
    ensures decimal { (text : Text) → is_decimal_number text ≡ true → IsDecimal text }
{}
