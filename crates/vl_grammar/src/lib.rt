//! The grammar of expressions, and laws about it.
#![tactic(auto)]

mod roles;

ghost use Rattle.std.specs.Prelude.{ℕ, suc, ◌≤◌, ◌-◌, ◌≡◌, ◌<◌, [], ◌++◌, length, drop, Some};
ghost use Rattle.vl_tree.specs.Words.{next};
ghost use Rattle.vl_grammar.specs.Read.{Tokens, expr};
ghost use Rattle.vl_grammar.specs.Spells.{Whole, Ends};
ghost use Rattle.vl_tree.specs.declared.expressions.Expr.{Expr};

pub use roles::{Role, binds, is_unary, role_of};

/// Each tree takes a token or more.
#[tactic(auto, using(crate::proofs::Shrinks::whole_shrinks))]
pub fn takes_tokens()
    ensures { (t : Expr) (ts rest : Tokens) → Whole t ts rest → length rest < length ts }
{}

/// What is behind a tree is an end of the tokens.
#[tactic(auto, using(crate::proofs::Fronts::whole_drops))]
pub fn leaves_an_end()
    ensures { (t : Expr) (ts rest : Tokens) → Whole t ts rest → drop (length ts - length rest) ts ≡ rest }
{}

/// What is read is spelled.
#[tactic(auto, using(crate::proofs::Sound::spelled))]
pub fn reads_spelled()
    ensures { (f : ℕ) (t : Expr) (ts rest : Tokens) → expr f 0 ts ≡ Some (t, rest) → Whole t ts rest }
{}

/// What a tree spells is read again, as that tree.
#[tactic(auto, using(crate::proofs::Again::whole_again))]
pub fn reads_again()
    ensures { (t : Expr) (ts rest : Tokens) → Whole t ts rest → (f : ℕ) → length ts ≤ f → Ends (next rest) → expr (suc f) 0 ts ≡ Some (t, rest) }
{}

/// At most one tree spells a list of tokens.
#[tactic(auto, using(crate::proofs::Again::one_tree))]
pub fn has_one_tree()
    ensures { (t u : Expr) (ts : Tokens) → Whole t ts [] → Whole u ts [] → t ≡ u }
{}

/// What a tree spells before a rest, it spells alone.
#[tactic(auto, using(crate::proofs::Cuts::alone_law))]
pub fn spells_alone()
    ensures { (t : Expr) (ts rest : Tokens) → Whole t ts rest → (front : Tokens) × (front ++ rest ≡ ts) × Whole t front [] }
{}

/// What a tree spells alone, it spells before any rest.
#[tactic(auto, using(crate::proofs::Cuts::before_law))]
pub fn spells_before()
    ensures { (t : Expr) (front rest : Tokens) → Whole t front [] → Whole t (front ++ rest) rest }
{}

/// Where no expression goes on with what stands behind a tree, no tree over the same tokens is longer.
#[tactic(auto, using(crate::proofs::Longest::none_longer))]
pub fn ends_the_longest()
    ensures { (t : Expr) (ts rest : Tokens) → Whole t ts rest → Ends (next rest) → (u : Expr) (back : Tokens) → Whole u ts back → length rest ≤ length back }
{}
