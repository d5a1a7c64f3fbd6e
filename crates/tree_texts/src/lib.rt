//! Trees of sources as texts, for programs of cases: each item and statement stands in `( )`, those of operators too, and `< >` stand for the brackets of the
//! source.
#![tactic(auto)]

mod expressions;
mod items;
mod modules;
mod statements;
mod text;
mod words;

pub use modules::modules_text;
