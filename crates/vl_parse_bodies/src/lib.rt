//! Reading items that hold no items: declarations, assignments, processes, functions, instances and gates (IEEE 1364-2005, A.1.4 and A.2.6, the part that this tool takes).
#![tactic(auto)]

mod items;
mod processes;

pub use items::{
    begins_declared, begins_placed, begins_written, declared_item, placed_item, written_item,
};
