//! Formulas in conjunctive normal form, logs that refute them, and what both mean.
#![tactic(auto)]

mod copies;
mod dimacs;
mod dimacs_text;
mod fault;
mod formula;
mod gate;
mod laws;
mod lit;
mod numbers;
mod standing;
mod text;

pub use dimacs::read_dimacs;
pub use dimacs_text::write_dimacs;
pub use fault::TextFault;
pub use formula::{Clause, ClauseList, Formula, IdList, Log, Step};
pub use gate::Gate;
pub use laws::{gate_formula_is_decided, refuted_has_no_model};
pub use lit::Lit;
pub use numbers::{integer, number, push_integer, push_number};
pub use standing::Standing;
pub use text::{Separator, cut, is_comment, next_word};

#[cfg(test)]
mod tests;
