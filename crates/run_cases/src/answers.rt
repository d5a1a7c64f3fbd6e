ghost use Rattle.std.specs.Prelude.{◌≡◌, ◌≤◌, nat_le, Bool, true, List, length};
ghost use Rattle.std.specs.List.{list_all};
ghost use Rattle.run_cases.specs.Trees.{IsExpr, IsStmt};

use crate::machine::Machine;
use crate::numbers::{decimal, value};
use crate::steps::step;
use crate::ways::{Way, env_by, read_way};
use crate::words::read;
use bits_core::{Bits, NoMemory};
use case_lines::Cases;
use design_core::{DExpr, DStmt};
use std::alloc::{AllocError, Global};
use stmt_exec::{Env, eval};
use value_domain::BitsDomain;

// `LENGTH:HEX` or `LENGTH:HEX*COUNT`.
fn read_signals(alloc: Global, text: &str) -> Result<Option<Vec<Bits>>, NoMemory> {
    let mut signals = Vec::new(alloc);
    for word in text.split_whitespace() {
        let (shape, count) = match word.split_once('*') {
            None => (word, Some(1)),
            Some((shape, count)) => (shape, decimal(count)),
        };
        let Some(count) = count else {
            return Ok(None);
        };
        let Some((length, value)) = value(shape) else {
            return Ok(None);
        };
        put_alike(alloc, &mut signals, count, length, value)?;
    }
    Ok(Some(signals))
}

fn put_alike(
    alloc: Global,
    signals: &mut Vec<Bits>,
    count: u32,
    length: u32,
    value: u128,
) -> Result<(), NoMemory> {
    if 1 <= length && length <= 65_536 {
        for _ in 0..count {
            signals.push(Bits::from_u128(alloc, value, length as usize)?)?;
        }
    }
    Ok(())
}

// Four bits as a digit; those past the end are 0.
fn digit(bits: &Bits, place: usize) -> u8
    requires { place ≤ 16384 }
{
    let mut digit = 0u8;
    for at in 0..4usize {
        let from = place * 4 + at;
        if from < bits.len() && bits.get(from) {
            digit |= 1 << at;
        }
    }
    digit
}

fn put_digit(out: &mut Vec<u8>, digit: u8) -> Result<(), AllocError> {
    let letter = match digit {
        0..=9 => b'0' + digit,
        10..=15 => b'a' + (digit - 10),
        _ => b'?',
    };
    out.push(letter)?;
    Ok(())
}

// In hexadecimal, without leading zeros.
fn put_bits(out: &mut Vec<u8>, bits: &Bits) -> Result<(), AllocError> {
    let mut leading = true;
    for place in (0..bits.len().div_ceil(4)).rev() {
        let digit = digit(bits, place);
        if digit != 0 || place == 0 {
            leading = false;
        }
        if !leading {
            put_digit(out, digit)?;
        }
    }
    Ok(())
}

fn value_of(alloc: Global, e: &DExpr, signals: Vec<Bits>) -> Result<Bits, NoMemory>
    requires { IsExpr signals.items e.now }
{
    let env = Env {
        now: signals,
        next: Vec::new(alloc),
    };
    let mut domain = BitsDomain::new(alloc);
    eval(alloc, &mut domain, e, &env)
}

fn put_value(
    alloc: Global,
    out: &mut Vec<u8>,
    e: &DExpr,
    signals: Vec<Bits>,
) -> Result<(), NoMemory>
    requires { IsExpr signals.items e.now }
{
    let value = value_of(alloc, e, signals)?;
    let length = value.len();
    let digits = format!(in alloc; "{length}:")?;
    out.extend_from_slice(digits.as_bytes())?;
    put_bits(out, &value)?;
    Ok(())
}

fn is_short(bits: &Bits) -> bool
    ensures { result ≡ nat_le (length bits.now) 65536 }
{
    bits.len() <= 65_536
}

fn are_short(signals: &[Bits]) -> bool
    ensures { result ≡ list_all (λ (bits : List Bool). nat_le (length bits) 65536) signals.now }
{
    signals.iter().all(|bits| is_short(bits))
}

fn put_first(out: &mut Vec<u8>, signals: &[Bits]) -> Result<(), AllocError> {
    let mut first = true;
    for bits in signals.iter().take(8) {
        if !first {
            out.push(b' ')?;
        }
        put_bits(out, bits)?;
        first = false;
    }
    Ok(())
}

fn put_env(
    alloc: Global,
    out: &mut Vec<u8>,
    s: &DStmt,
    signals: Vec<Bits>,
    way: Way,
) -> Result<bool, NoMemory>
    requires { IsStmt signals.items s.now }
{
    if !are_short(signals.as_slice()) {
        return Ok(false);
    }
    let Some(env) = env_by(alloc, s, signals, way)? else {
        return Ok(false);
    };
    put_first(out, env.now.as_slice())?;
    out.extend_from_slice(b" / ")?;
    put_first(out, env.next.as_slice())?;
    Ok(true)
}

// The signals and the stacks after all words, where each fits.
fn run(alloc: Global, line: &str) -> Result<Option<Machine>, NoMemory> {
    let Some((signals, words)) = line.split_once(';') else {
        return Ok(None);
    };
    let Some(signals) = read_signals(alloc, signals)? else {
        return Ok(None);
    };
    let mut machine = Machine::new(alloc, signals);
    for text in words.split_whitespace() {
        let Some(word) = read(text) else {
            return Ok(None);
        };
        if !step(alloc, &mut machine, word)? {
            return Ok(None);
        }
    }
    Ok(Some(machine))
}

fn put_expr(alloc: Global, out: &mut Vec<u8>, mut machine: Machine) -> Result<bool, NoMemory> {
    let Some(e) = machine.pop() else {
        return Ok(false);
    };
    if !machine.is_empty() {
        return Ok(false);
    }
    put_value(alloc, out, &e, machine.signals)?;
    Ok(true)
}

fn put_stmt(
    alloc: Global,
    out: &mut Vec<u8>,
    mut machine: Machine,
    way: Way,
) -> Result<bool, NoMemory> {
    let Some(s) = machine.pop_stmt() else {
        return Ok(false);
    };
    if !machine.is_empty() {
        return Ok(false);
    }
    put_env(alloc, out, &s, machine.signals, way)
}

fn put_run(alloc: Global, out: &mut Vec<u8>, line: &str, way: Way) -> Result<bool, NoMemory> {
    let Some(machine) = run(alloc, line)? else {
        return Ok(false);
    };
    match way {
        Way::Plain if !machine.has_stmt() => put_expr(alloc, out, machine),
        way => put_stmt(alloc, out, machine, way),
    }
}

fn put_answer(alloc: Global, out: &mut Vec<u8>, line: &str) -> Result<bool, NoMemory> {
    let Some((line, text)) = line.rsplit_once(" @ ") else {
        return put_run(alloc, out, line, Way::Plain);
    };
    match read_way(alloc, text.trim())? {
        None => Ok(false),
        Some(way) => put_run(alloc, out, line, way),
    }
}

/// Each line is a case of its own.
#[derive(Drop)]
pub struct Runs;

impl Cases for Runs {
    fn answer(&mut self, alloc: Global, line: &str) -> Result<Option<Vec<u8>>, AllocError> {
        let mut out = Vec::new(alloc);
        match put_answer(alloc, &mut out, line) {
            Ok(true) => {}
            Ok(false) => out.push(b'?')?,
            Err(NoMemory) => out.extend_from_slice(b"no memory")?,
        }
        Ok(Some(out))
    }
}
