//! The functions of a scope that call themselves through any calls, by their text.
#![tactic(auto, using(crate::proofs::Rules::rules))]

mod calls;
mod circles;
mod laws;

pub use calls::called;
pub use circles::circular;
pub use laws::circular_functions_reach_themselves;
