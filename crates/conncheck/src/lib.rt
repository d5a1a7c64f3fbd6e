//! The top call: what the program does with the words of its command line, a shelf of files and a sink.
#![tactic(auto)]

mod commands;
mod decide;
mod laws;
mod message;
mod reads;
mod report;
mod status;
mod text;
mod top;
mod words;

pub use commands::wrong_word;
pub use laws::replies_are_one;
pub use status::Status;
pub use top::run;
