//! Reading statements (IEEE 1364-2005, A.6, the part that this tool takes).
#![tactic(auto)]

mod statements;

pub use statements::nested_statement;
