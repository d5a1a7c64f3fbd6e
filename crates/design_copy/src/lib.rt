//! Copies of trees and items in which signals are numbered anew: each signal that is named gets the number that a list gives it, and all else is as it was.
#![tactic(auto)]

mod renumber;

pub use renumber::{
    renumber_arm, renumber_expr, renumber_function, renumber_item, renumber_left, renumber_match,
    renumber_node, renumber_reset, renumber_stmt,
};
