//! Expressions evaluated and statements run over bit lists, case by case: a program for tables of cases.
//!
//! A line is the signals, `;`, and the words of an expression or of a statement in postfix order.
//! The words are `read`'s in words.rt; a left side that stands by itself is written by `b=` or `n=`.
//! Behind ` @ ` at the end stand the bits of a guard, under which the statement is run, or `at_once` for an assignment that is seen at once, as an assign.
//! The answer is the value of the expression, or the first signals after the statement; `?` where the line is no case.
#![tactic(auto)]

mod answers;
mod machine;
mod numbers;
mod runs;
mod steps;
mod ways;
mod words;

use answers::Runs;
use case_lines::answer_lines;
use std::io;

fn main(rt: HostRuntime) -> io::Result<()> {
    let mut writer = io::writer(&rt);
    answer_lines(rt.alloc(), rt.reader(), &mut Runs, &mut writer)
}
