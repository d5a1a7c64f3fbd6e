//! Values that expressions are evaluated to: a trait with the laws that an evaluator needs, and bit lists as its plain form.
#![tactic(auto)]

mod domain;
pub mod operators;
mod parts;
mod plain;
mod variable;
pub mod words;

pub use domain::Domain;
pub use parts::{Word, concatenate, guarded, join, matched, narrowed, repeat};
pub use plain::BitsDomain;
pub use variable::{Start, place_at, select_at};
