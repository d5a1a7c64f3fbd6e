//! Logs judged against formulas, case by case: a program for a table of cases.
//!
//! A line is the text of a formula, `|` and the text of a log, with `/` for the end of a line; or, with no `|`, one text with both. The answer is `verified`, or
//! `rejected` and the step, or `bad formula` or `bad log` and the line.
#![tactic(auto)]

mod cases;

use case_lines::answer_lines;
use cases::Logs;
use std::io;

fn main(rt: HostRuntime) -> io::Result<()> {
    let alloc = rt.alloc();
    let mut writer = io::writer(&rt);
    answer_lines(alloc, rt.reader(), &mut Logs, &mut writer)
}
