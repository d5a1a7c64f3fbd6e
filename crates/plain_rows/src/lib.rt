//! The rows of a plain table over a plain module, decided by the ends of their wires.
#![tactic(auto)]

mod decide;
mod laws;

pub use decide::{Verdict, decide_row};
pub use laws::{drivers_are_assigns, verdicts_are_one};
