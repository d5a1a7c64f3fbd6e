//! What the programs of cases about expressions share: the reading of a whole expression, the names in reach, and the answer of a refusal.
#![tactic(auto)]

mod names;
mod reading;

pub use names::{Shape, WIRE, put_name, size_entry, vector};
pub use reading::{Failure, put_failure, read_whole};
