ghost use Rattle.std.specs.Prelude.{◌≡◌, ℕ, ◌++◌, ◌<◌, ◌≤◌, ◌^◌, List, cond, Some, None, Err, IfOk, OnOk};
ghost use Rattle.cnf_core.specs.Text.{Word, line_words};
ghost use Rattle.cnf_core.specs.Dimacs.{IsCounted, stepped, read_words, finished_at, at_line, dimacs_of, Reads, with_literal};
ghost use Rattle.std.specs.Int.RustNames.{unsigned_abs};
ghost use Rattle.std.specs.Str.{bytes_eq};

use crate::fault::TextFault;
use crate::formula::{Clause, ClauseList, Formula};
use crate::lit::Lit;
use crate::numbers::{integer, number};
use crate::text::{Separator, cut, is_comment, next_word};
use bits_core::{Items, NoMemory};
use std::alloc::Global;
use std::mem;

/// What the next word of a DIMACS text has to be.
#[derive(Clone, Copy)]
pub(crate) enum Stage {
    Problem,
    Format,
    Variables,
    Count,
    Clauses,
}

/// What was read of a DIMACS text: the clauses that are ended, and the literals of the next one.
#[derive(Drop)]
pub(crate) struct Reading {
    pub(crate) stage: Stage,
    pub(crate) variables: u32,
    pub(crate) left: u32,
    pub(crate) clauses: ClauseList,
    pub(crate) clause: Clause,
}

/// Takes the next number of the clauses: a literal, or 0 at the end of a clause.
fn take_literal(alloc: Global, reading: &mut Reading, value: i64) -> Result<(), NoMemory>
    requires below { unsigned_abs value < 2 ^ 30 }
    requires left { 0 < reading.old.left }
    ensures taken { OnOk result (reading.new ≡ with_literal reading.old value) }
    ensures kept { reading.new.variables ≡ reading.old.variables }
{
    if value == 0 {
        let clause = mem::replace(&mut reading.clause, Items::new(alloc));
        reading.clauses.push(clause)?;
        reading.left -= 1;
    } else {
        reading.clause.push(Lit::of_integer(value))?;
    }
    Ok(())
}

/// Takes a word that has to be this text, and goes on to the next stage.
fn take_text(reading: &mut Reading, word: &[u8], text: &[u8], next: Stage) -> bool
    ensures fits { result ≡ bytes_eq word.now text.now }
    ensures reading { reading.new ≡ cond result (record reading.old { stage = next }) reading.old }
{
    let fits = word == text;
    if fits {
        reading.stage = next;
    }
    fits
}

/// Takes the word for the number of variables or of clauses, or for a literal.
fn take_number(alloc: Global, reading: &mut Reading, word: &[u8]) -> Result<bool, NoMemory>
    requires small { reading.old.variables < 2 ^ 30 }
    requires stage { IsCounted reading.old.stage }
    ensures fits { IfOk result (λ fits. stepped reading.old word.now ≡ cond fits (Some reading.new) None) }
    ensures small { reading.new.variables < 2 ^ 30 }
{
    match reading.stage {
        Stage::Variables => {
            let Some(variables) = number(word, 1 << 30) else {
                return Ok(false);
            };
            reading.variables = variables as u32;
            reading.stage = Stage::Count;
        }
        Stage::Count => {
            let Some(count) = number(word, 1 << 30) else {
                return Ok(false);
            };
            reading.left = count as u32;
            reading.stage = Stage::Clauses;
        }
        _ => {
            if reading.left == 0 {
                return Ok(false);
            }
            let Some(value) = integer(word, reading.variables as u64 + 1) else {
                return Ok(false);
            };
            take_literal(alloc, reading, value)?;
        }
    }
    Ok(true)
}

/// Takes the next word, if it fits.
fn take(alloc: Global, reading: &mut Reading, word: &[u8]) -> Result<bool, NoMemory>
    requires { reading.old.variables < 2 ^ 30 }
    ensures fits { IfOk result (λ fits. stepped reading.old word.now ≡ cond fits (Some reading.new) None) }
    ensures small { reading.new.variables < 2 ^ 30 }
{
    match reading.stage {
        Stage::Problem => Ok(take_text(reading, word, b"p", Stage::Format)),
        Stage::Format => Ok(take_text(reading, word, b"cnf", Stage::Variables)),
        _ => take_number(alloc, reading, word),
    }
}

/// Takes the words of a line, none of a comment, as far as they fit.
fn take_line(alloc: Global, reading: &mut Reading, line: &[u8]) -> Result<bool, NoMemory>
    requires { reading.old.variables < 2 ^ 30 }
    ensures fits { IfOk result (λ fits. (n : ℕ) (ws : List Word) → read_words reading.old (line_words n line.now ++ ws) ≡ cond fits (read_words reading.new ws) (Err (Some n))) }
    ensures small { reading.new.variables < 2 ^ 30 }
{
    if is_comment(line) {
        return Ok(true);
    }
    let mut rest = line;
    while let Some((word, behind)) = next_word(rest) {
        if !take(alloc, reading, word)? {
            return Ok(false);
        }
        rest = behind;
    }
    Ok(true)
}

/// The formula, where the text may end here.
fn finish(reading: Reading, line: u64) -> Result<Formula, TextFault>
    ensures { result ≡ at_line line (finished_at reading.stage reading) }
{
    match reading.stage {
        Stage::Clauses if reading.left == 0 => Ok(Formula {
            variables: reading.variables,
            clauses: reading.clauses,
        }),
        _ => Err(TextFault::Bad { line }),
    }
}

/// The formula that a DIMACS text says: words parted by blanks and newlines, lines that begin with `c` left out, first `p cnf V C`
/// with V and C below 2^30, then C clauses of literals of the variables 1 to V, each clause ended by 0. Any other text is
/// `Bad`: at the line of the first word that is out of place, and at the last line (1 in an empty text) where the text ends too soon.
/// Linear in the text.
pub fn read_dimacs(alloc: Global, bytes: &[u8]) -> Result<Formula, TextFault>
    ensures { Reads result (dimacs_of bytes.now) }
{
    let mut reading = Reading {
        stage: Stage::Problem,
        variables: 0,
        left: 0,
        clauses: Items::new(alloc),
        clause: Items::new(alloc),
    };
    let mut line: u64 = 0;
    let mut rest = bytes;
    while !rest.is_empty() {
        let (front, behind) = cut(rest, Separator::Newline);
        line += 1;
        if !take_line(alloc, &mut reading, front)? {
            return Err(TextFault::Bad { line });
        }
        rest = behind;
    }
    finish(reading, line.max(1))
}
