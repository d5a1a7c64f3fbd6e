//! The signals to which a listed clock leads through plain connections of one bit.
#![tactic(auto)]

mod chains;

pub use chains::{Step, clocked};
