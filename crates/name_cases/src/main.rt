//! The first signal, or the first scope, that prints like an earlier one, case by case: a program for a table of cases.
//!
//! A line is `signals` or `scopes` and paths with blanks between. A path of a signal may be followed by `@`, the declared right bound, `:` and the left one.
//! The answer is the place of the first that prints like an earlier one or has a bit that does, counted from 0; `-` where all print apart; `?` where the line is no case.
#![tactic(auto)]

mod answers;
mod signals;

use answers::Names;
use case_lines::answer_lines;
use std::io;

fn main(rt: HostRuntime) -> io::Result<()> {
    let alloc = rt.alloc();
    let mut writer = io::writer(&rt);
    answer_lines(alloc, rt.reader(), &mut Names, &mut writer)
}
