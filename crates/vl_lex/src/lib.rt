//! The tokens of a source, and the tokens that are kept when its directives are obeyed (IEEE 1364-2005, sections 3 and 19).
#![tactic(auto)]

mod asked;
mod asking;
mod branches;
pub mod bytes;
mod calls;
mod directives;
mod expansion;
mod files;
mod gate;
mod laws;
mod lexer;
mod macros;
pub mod numbers;
mod opened;
mod pieces;
mod preprocessor;
mod resume;
mod source;
mod state;
mod walk;

pub use asking::Asking;
pub use files::Files;
pub use laws::{
    asks_for_absent_files, cuts_in_one_way, cuts_into_longest, expands_without_bound,
    further_files_change_nothing, kept_tokens_are_slices, macros_are_counted, tokens_are_slices,
};
pub use lexer::lex;
pub use preprocessor::{Walk, Walked, preprocess, start_walk};
pub use source::Source;
