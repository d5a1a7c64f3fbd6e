//! The nets of a scope that have no declaration (IEEE 1364-2005, 4.5).
#![tactic(auto, using(crate::proofs::Rules::rules))]

mod nets;

pub use nets::use_items;
