//! Sources and what is kept of them, case by case: a program for tables of cases, and for measuring.
#![tactic(auto)]

mod answers;
mod asking;
mod cases;

use bits_core::Items;
use case_lines::answer_lines;
use cases::Case;
use std::alloc::{Alloc, Global};
use std::io::Write;
use std::rt::Files;
use std::{env, fs, io};

// The answer for one file, by its name.
fn measure<R: Files + Alloc<A = Global>>(rt: &R, alloc: Global, name: &str) -> io::Result<Vec<u8>> {
    let mut case = Case::new(alloc);
    case.take_file(name.as_bytes(), fs::read(rt, name)?)?;
    Ok(case.run(1, Items::new(alloc))?)
}

fn main(rt: HostRuntime) -> io::Result<()> {
    let alloc = rt.alloc();
    let mut writer = io::writer(&rt);
    if let Some(name) = env::args(&rt)?.nth(1) {
        let mut answer = measure(&rt, alloc, name.as_str())?;
        answer.push(b'\n')?;
        return writer.write_all(answer.as_slice());
    }
    let mut case = Case::new(alloc);
    answer_lines(alloc, rt.reader(), &mut case, &mut writer)
}
