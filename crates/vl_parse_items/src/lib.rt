//! Reading items, among them those that hold items: loops, choices, cases, blocks and regions (IEEE 1364-2005, A.1.4 and A.4.2, the part that this tool takes).
#![tactic(auto)]

mod items;

pub use items::module_items;
