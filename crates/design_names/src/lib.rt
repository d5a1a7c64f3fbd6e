//! Signals, bits and scopes of a design that print alike.
#![tactic(auto)]

mod alike;
mod brackets;
mod texts;

pub use alike::{first_alike, first_scope_alike};
