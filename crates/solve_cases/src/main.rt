//! Formulas solved, case by case: a program for tables of cases and for `bench/solve.py`.
//!
//! A line is a budget, a number of variables, and the literals of the clauses, 0 behind each. All variables are leaves. The answer is `SAT` and the value of
//! each variable, or `UNSAT` or `SPENT` and the literals of each step of the log, 0 behind each; or `?` where the line is no such case.
#![tactic(auto)]

mod cases;

use case_lines::answer_lines;
use cases::Formulas;
use std::io;

fn main(rt: HostRuntime) -> io::Result<()> {
    let alloc = rt.alloc();
    let mut writer = io::writer(&rt);
    answer_lines(alloc, rt.reader(), &mut Formulas, &mut writer)
}
