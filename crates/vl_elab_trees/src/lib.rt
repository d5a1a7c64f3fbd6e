//! Expressions of the source as trees of a design, in the scopes where they stand (IEEE 1364-2005, 5.1 to 5.5).
#![tactic(auto, using(crate::proofs::Rules::rules))]

pub mod built;
pub mod calls;
mod laws;
mod nodes;
pub mod places;
mod scope;
mod steps;
pub mod whole;

pub use laws::expression_is_formed;
pub use scope::{Known, Scope};
pub use whole::{expression, expression_with};
