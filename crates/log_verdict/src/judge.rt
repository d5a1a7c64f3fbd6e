ghost use Rattle.std.specs.Prelude.{◌≡◌, ◌+◌, ◌^◌, ◌<◌, IfOk, length};
ghost use Rattle.cnf_core.specs.Text.{text_lines};
ghost use Rattle.log_verdict.specs.Answer.{IsJudged, IsJudgedOne, answer_of};

use crate::lines::part_at;
use bits_core::NoMemory;
use cnf_core::{TextFault, read_dimacs};
use lrat_checker::{Checked, check, make_marks, read_lrat};
use std::alloc::Global;

/// What a formula and a log come to: the log refutes the formula, or its first refused step, counted from 1 (one past the last where
/// none is refused); or the line at which the formula's text or the log's is not of its form.
#[derive(Clone, Copy, Debug, PartialEq, Eq)]
pub enum LogAnswer {
    Verified,
    Rejected(u64),
    BadFormula(u64),
    BadLog(u64),
}

/// A formula's text, and a log's text that stands behind some lines.
fn judge(alloc: Global, formula: &[u8], log: &[u8], before: u64) -> Result<LogAnswer, NoMemory>
    requires { before + length (text_lines log.now) < 2 ^ 64 }
    ensures { IfOk result (λ a. a ≡ answer_of before (text_lines formula.now) (text_lines log.now)) }
{
    let formula = match read_dimacs(alloc, formula) {
        Ok(formula) => formula,
        Err(TextFault::Bad { line }) => return Ok(LogAnswer::BadFormula(line)),
        Err(TextFault::NoMemory) => return Err(NoMemory),
    };
    let log = match read_lrat(alloc, log) {
        Ok(log) => log,
        Err(TextFault::Bad { line }) => return Ok(LogAnswer::BadLog(before + line)),
        Err(TextFault::NoMemory) => return Err(NoMemory),
    };
    let mut marks = make_marks(alloc, &formula, &log)?;
    match check(&formula, &log, &mut marks) {
        Checked::Verified => Ok(LogAnswer::Verified),
        Checked::Rejected(step) => Ok(LogAnswer::Rejected(step)),
    }
}

/// The answer for a formula's text and a log's text: the faults of the formula's text come first. A hint costs the length of its clause and a look-up,
/// which is logarithmic; all else is linear in the texts.
pub fn judge_two(alloc: Global, formula: &[u8], log: &[u8]) -> Result<LogAnswer, NoMemory>
    ensures { IfOk result (IsJudged 0 (text_lines formula.now) (text_lines log.now)) }
{
    judge(alloc, formula, log, 0)
}

/// The answer for one text with both: a line `c proof` ends the formula, and the log behind it ends at a line `c next` or with the text. Lines are counted
/// in the whole text.
pub fn judge_one(alloc: Global, text: &[u8]) -> Result<LogAnswer, NoMemory>
    ensures { IfOk result (IsJudgedOne (text_lines text.now)) }
{
    let proof = part_at(alloc, text, b"c proof")?;
    let log = part_at(alloc, proof.behind, b"c next")?;
    judge(
        alloc,
        proof.front.as_slice(),
        log.front.as_slice(),
        proof.lines,
    )
}
