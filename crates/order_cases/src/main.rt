//! Orders, circles and slices of items, case by case: a program for tables of cases.
//!
//! A line has what each item reads, `;`, who drives each bit, `;`, and the wanted bits. What an item reads are spans `FROM-TO` with commas between them, or `.`
//! for none; who drives a bit is the number of an item, or `.` for none.
//! The answer is the slice of the wanted bits, and an order of the items or those of them that stand on circles; `?` where the line is no case.
#![tactic(auto)]

mod answers;
mod fits;
mod reading;

use answers::Orders;
use case_lines::answer_lines;
use std::io;

fn main(rt: HostRuntime) -> io::Result<()> {
    let mut writer = io::writer(&rt);
    answer_lines(rt.alloc(), rt.reader(), &mut Orders, &mut writer)
}
