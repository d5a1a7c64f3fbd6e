//! The parts of expressions and statements in order: what an expression is computed from, what a statement asks for first, and what it runs.
#![tactic(auto)]

mod expressions;
mod statements;

pub use expressions::{operands, signal_of};
pub use statements::{asked, children, heads};
