//! Reading items that hold no statement, as continuous assignments, and what stands before the statement of a function (IEEE 1364-2005, A.2.1.3, A.2.6, A.4.2, A.6.1, the
//! part that this tool takes).
#![tactic(auto)]

mod assignments;
mod functions;

pub use assignments::{assigns_item, expressions, integers_item, loop_names_item};
pub use functions::{function_declarations, function_inputs};
