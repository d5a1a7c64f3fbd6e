//! Reading whole sources (IEEE 1364-2005, annex A, the part that this tool takes).
#![tactic(auto)]

mod files;
mod modules;

pub use files::parse_files;
