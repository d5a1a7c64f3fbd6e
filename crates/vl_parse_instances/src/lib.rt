//! Reading instances of modules and of gates (IEEE 1364-2005, A.3.1 and A.4.1, the part that this tool takes).
#![tactic(auto)]

mod instances;

pub use instances::{begins_gates, gates_item, instances_item};
