//! Reading what many rules of a source share: rows of parts, values, left sides and heads (IEEE 1364-2005, annex A, the part that this tool takes).
#![tactic(auto)]

mod heads;
mod left;
mod reader;
mod rows;

pub use reader::{AfterEquals, Names, Reader, Values, begins_value, is_next, no_free};
pub use rows::{AfterComma, Part, list, many, maybe, one_and_more};
