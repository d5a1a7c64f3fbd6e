//! What the text of functions and blocks says before anything is evaluated: the names of a function, and whether a block writes a name.
#![tactic(auto, using(crate::proofs::Rules::rules))]

mod heads;
mod writes;

pub use heads::{inner_names, own_names};
pub use writes::block_writes;
