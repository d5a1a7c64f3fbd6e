//! Logs judged against formulas, both as texts.
#![tactic(auto)]

mod judge;
mod lines;

pub use judge::{LogAnswer, judge_one, judge_two};
