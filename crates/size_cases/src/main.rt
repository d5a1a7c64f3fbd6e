//! Expressions with the length and the sign that each part has in its context, case by case: a program for tables of cases.
//!
//! A line is a length of the context, the values of counts, bounds and widths with blanks between, and the expression, parted by `;`.
//! The answer has each part as its length and `u` or `s`, with its own parts in brackets, or the code of a refusal.
#![tactic(auto)]

mod answers;
mod names;

use answers::SizeCases;
use case_lines::answer_lines;
use names::table;
use std::io;

fn main(rt: HostRuntime) -> io::Result<()> {
    let alloc = rt.alloc();
    let mut writer = io::writer(&rt);
    let mut cases = SizeCases {
        names: table(alloc)?,
    };
    answer_lines(alloc, rt.reader(), &mut cases, &mut writer)
}
