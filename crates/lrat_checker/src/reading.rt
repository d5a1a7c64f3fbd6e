ghost use Rattle.std.specs.Prelude.{◌≡◌, ◌≤◌, ◌^◌, Some, None, cond, IfOk, MatchOption};
ghost use Rattle.cnf_core.specs.Text.{words_of};
ghost use Rattle.cnf_core.specs.Dimacs.{Reads};
ghost use Rattle.lrat_checker.specs.Lrat.{until_zero, id_of, deletion, addition, ended, all_positive, step_of, steps_of_line, logged, lrat_of};

use bits_core::{Items, NoMemory};
use cnf_core::{Lit, Log, Separator, Step, TextFault, cut, integer, is_comment, next_word, number};
use std::alloc::Global;

/// The integers up to the first 0, and what comes behind it.
fn read_numbers(alloc: Global, line: &[u8]) -> Result<Option<(Vec<i64>, &[u8])>, NoMemory>
    ensures { IfOk result (λ found. MatchOption found (until_zero (2 ^ 63) (words_of line.now) ≡ None) (λ p. until_zero (2 ^ 63) (words_of line.now) ≡ Some (record { numbers = p.0.items; behind = words_of p.1.now }))) }
{
    let mut numbers = Vec::new(alloc);
    let mut rest = line;
    while let Some((word, behind)) = next_word(rest) {
        let Some(value) = integer(word, 1 << 63) else {
            return Ok(None);
        };
        if value == 0 {
            return Ok(Some((numbers, behind)));
        }
        numbers.push(value)?;
        rest = behind;
    }
    Ok(None)
}

/// The literals up to the first 0, and what comes behind it.
fn read_literals(alloc: Global, line: &[u8]) -> Result<Option<(Vec<Lit>, &[u8])>, NoMemory>
    ensures { IfOk result (λ found. MatchOption found (until_zero (2 ^ 30) (words_of line.now) ≡ None) (λ p. until_zero (2 ^ 30) (words_of line.now) ≡ Some (record { numbers = p.0.items; behind = words_of p.1.now }))) }
{
    let mut lits = Vec::new(alloc);
    let mut rest = line;
    while let Some((word, behind)) = next_word(rest) {
        let Some(value) = integer(word, 1 << 30) else {
            return Ok(None);
        };
        if value == 0 {
            return Ok(Some((lits, behind)));
        }
        lits.push(Lit::of_integer(value))?;
        rest = behind;
    }
    Ok(None)
}

/// The integers up to a 0 that ends the line.
fn read_last(alloc: Global, line: &[u8]) -> Result<Option<Vec<i64>>, NoMemory>
    ensures { IfOk result (λ found. MatchOption found (ended (until_zero (2 ^ 63) (words_of line.now)) ≡ None) (λ v. ended (until_zero (2 ^ 63) (words_of line.now)) ≡ Some v.items)) }
{
    match read_numbers(alloc, line)? {
        Some((numbers, behind)) if next_word(behind).is_none() => Ok(Some(numbers)),
        _ => Ok(None),
    }
}

fn read_id(word: &[u8]) -> Option<u64>
    ensures { result ≡ id_of word.now }
{
    match number(word, 1 << 63) {
        Some(id) if id != 0 => Some(id),
        _ => None,
    }
}

fn are_positive(ids: &[i64]) -> bool
    ensures { result ≡ all_positive ids.now }
{
    for id in ids {
        if *id < 0 {
            return false;
        }
    }
    true
}

fn read_deletion(alloc: Global, line: &[u8]) -> Result<Option<Step>, NoMemory>
    ensures { IfOk result (λ step. step ≡ deletion (ended (until_zero (2 ^ 63) (words_of line.now)))) }
{
    match read_last(alloc, line)? {
        Some(ids) if are_positive(ids.as_slice()) => Ok(Some(Step::Delete {
            ids: Items::of(ids),
        })),
        _ => Ok(None),
    }
}

fn read_addition(alloc: Global, id: u64, line: &[u8]) -> Result<Option<Step>, NoMemory>
    ensures { IfOk result (λ step. step ≡ addition id (until_zero (2 ^ 30) (words_of line.now))) }
{
    let Some((lits, behind)) = read_literals(alloc, line)? else {
        return Ok(None);
    };
    let Some(hints) = read_last(alloc, behind)? else {
        return Ok(None);
    };
    Ok(Some(Step::Add {
        id,
        lits: Items::of(lits),
        hints: Items::of(hints),
    }))
}

/// The step that a line says.
fn read_step(alloc: Global, line: &[u8]) -> Result<Option<Step>, NoMemory>
    ensures { IfOk result (λ step. step ≡ step_of (words_of line.now)) }
{
    let Some((word, rest)) = next_word(line) else {
        return Ok(None);
    };
    let Some(id) = read_id(word) else {
        return Ok(None);
    };
    match next_word(rest) {
        None => Ok(None),
        Some((kind, behind)) => {
            if kind == b"d".as_slice() {
                read_deletion(alloc, behind)
            } else {
                read_addition(alloc, id, rest)
            }
        }
    }
}

/// Puts the step of a line at the end of the log, if it has one; false where it is of no form.
fn take_line(alloc: Global, log: &mut Log, line: &[u8]) -> Result<bool, NoMemory>
    ensures { IfOk result (λ fits. logged log.old (steps_of_line line.now) ≡ cond fits (Some log.new) None) }
{
    if is_comment(line) || next_word(line).is_none() {
        return Ok(true);
    }
    match read_step(alloc, line)? {
        None => Ok(false),
        Some(step) => {
            log.push(step)?;
            Ok(true)
        }
    }
}

/// The log that an LRAT text says: a step a line, `id lits 0 hints 0` or `id d ids 0`, with words parted by blanks; lines of
/// blanks alone and lines that begin with `c` are left out. Ids are from 1 to 2^63 - 1, literals not 0 and of absolute values
/// below 2^30, hints not 0 and of absolute values below 2^63. Any other text is `Bad` at its first line that is of neither form.
/// Linear in the text.
pub fn read_lrat(alloc: Global, bytes: &[u8]) -> Result<Log, TextFault>
    ensures { Reads result (lrat_of bytes.now) }
{
    let mut log = Items::new(alloc);
    let mut line: u64 = 0;
    let mut rest = bytes;
    while !rest.is_empty() {
        let (front, behind) = cut(rest, Separator::Newline);
        line += 1;
        if !take_line(alloc, &mut log, front)? {
            return Err(TextFault::Bad { line });
        }
        rest = behind;
    }
    Ok(log)
}
