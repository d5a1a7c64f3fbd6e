//! What the text of a module says of its ports and its parameters, and what a stub of it declares.
#![tactic(auto, using(crate::proofs::Rules::rules))]

mod modules;

pub use modules::{parameters_of, ports_of, stub_items};
