//! The words of the command line: which of them are a command, and which values it has.
//!
//! A line of words is a command's word, then options, each with a value, then names of files. The options of all commands stand in one table, from which the test of the shape, what `clap`
//! decides and the usage text are read.
#![tactic(auto)]

mod commands;
mod cut;
mod matching;
mod options;
mod shape;
mod stop;
mod table;
mod usage_text;
mod values;

pub use commands::{
    CheckForm, CheckWords, Command, ExtractWords, ReplayWords, SessionWords, read_words,
};
pub use options::{Options, PinWord, ResetWord};
pub use stop::WordsStop;
pub use usage_text::{usage, wrong_word};
