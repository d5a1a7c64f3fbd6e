//! The names of a scope in the order of its text: its declarations, and nets without one at their first use (IEEE 1364-2005, 4.5).
#![tactic(auto, using(crate::proofs::Rules::rules))]

mod named;

pub use named::{block_names, module_names, stub_names};
