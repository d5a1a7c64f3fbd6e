//! Sources and their trees, case by case: a program for tables of cases, and for measuring.
//!
//! With no argument it reads cases from its input (`TreeCases` says how they are written) and prints a line for each: the title, and `ok` with the tree or the
//! number of modules, or the code of the fault and its line. With the name of a file it prints how many modules that has, or the fault.
#![tactic(auto)]

mod cases;

use case_lines::answer_lines;
use cases::{TreeCases, Written, answer};
use std::alloc::{Alloc, Global};
use std::io::Write;
use std::rt::Files;
use std::{env, fs, io};

// The answer for one file, by its name.
fn measure<R: Files + Alloc<A = Global>>(rt: &R, alloc: Global, name: &str) -> io::Result<Vec<u8>> {
    let mut out = Vec::new(alloc);
    answer(alloc, &mut out, fs::read(rt, name)?, Written::Count)?;
    out.push(b'\n')?;
    Ok(out)
}

fn main(rt: HostRuntime) -> io::Result<()> {
    let alloc = rt.alloc();
    let mut writer = io::writer(&rt);
    if let Some(name) = env::args(&rt)?.nth(1) {
        let answer = measure(&rt, alloc, name.as_str())?;
        return writer.write_all(answer.as_slice());
    }
    let mut cases = TreeCases::new(alloc);
    answer_lines(alloc, rt.reader(), &mut cases, &mut writer)
}
