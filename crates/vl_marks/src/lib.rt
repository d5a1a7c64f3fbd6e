//! The first fault of a scope, among the faults and the names that stand in its text.
#![tactic(auto)]

mod marks;

pub use marks::{Mark, MarkList, first_fault};
