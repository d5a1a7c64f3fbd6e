use bits_core::NoMemory;
use case_lines::Cases;
use cnf_core::push_number;
use log_verdict::{LogAnswer, judge_one, judge_two};
use std::alloc::{AllocError, Global};

/// The text that a part of a line stands for.
fn text_of(alloc: Global, part: &str) -> Result<Vec<u8>, NoMemory> {
    let mut text = Vec::new(alloc);
    for byte in part.as_bytes() {
        text.push(if *byte == b'/' { b'\n' } else { *byte })?;
    }
    Ok(text)
}

fn judged(alloc: Global, line: &str) -> Result<LogAnswer, NoMemory> {
    match line.split_once('|') {
        Some((formula, log)) => {
            let formula = text_of(alloc, formula)?;
            let log = text_of(alloc, log)?;
            judge_two(alloc, formula.as_slice(), log.as_slice())
        }
        None => {
            let text = text_of(alloc, line)?;
            judge_one(alloc, text.as_slice())
        }
    }
}

fn push_counted(out: &mut Vec<u8>, what: &str, count: u64) -> Result<(), NoMemory> {
    out.extend_from_slice(what.as_bytes())?;
    out.push(b' ')?;
    push_number(out, count)
}

fn push_answer(out: &mut Vec<u8>, answer: LogAnswer) -> Result<(), NoMemory> {
    match answer {
        LogAnswer::Verified => {
            out.extend_from_slice(b"verified")?;
            Ok(())
        }
        LogAnswer::Rejected(step) => push_counted(out, "rejected", step),
        LogAnswer::BadFormula(line) => push_counted(out, "bad formula", line),
        LogAnswer::BadLog(line) => push_counted(out, "bad log", line),
    }
}

fn answered(alloc: Global, line: &str) -> Result<Vec<u8>, NoMemory> {
    let mut out = Vec::new(alloc);
    let answer = judged(alloc, line)?;
    push_answer(&mut out, answer)?;
    Ok(out)
}

/// Formulas and logs, one pair a line.
#[derive(Drop)]
pub struct Logs;

impl Cases for Logs {
    fn answer(&mut self, alloc: Global, line: &str) -> Result<Option<Vec<u8>>, AllocError> {
        match answered(alloc, line) {
            Ok(out) => Ok(Some(out)),
            Err(NoMemory) => Err(AllocError),
        }
    }
}
