ghost use Rattle.std.specs.Prelude.{◌≡◌, IfSome, true, length, map};
ghost use Rattle.design_core.specs.Formed.{has_length};

use crate::machine::Machine;
use crate::runs::{
    put_arm, put_assignment, put_branch, put_case, put_case_else, put_free_item, put_item,
    put_left, put_pair, put_statements, put_write,
};
use crate::words::Word;
use bits_core::{Bits, NoMemory};
use called_function::call;
use design_core::{Binary, Unary};
use formed_trees as trees;
use std::alloc::Global;

/// The length of a signal, where there is one of this number.
pub fn signal_length(signals: &[Bits], number: u32) -> Option<u32>
    ensures { IfSome result (λ n. has_length (map length signals.now) number n ≡ true) }
{
    let at = number as usize;
    if at < signals.len() {
        Some(signals[at].len() as u32)
    } else {
        None
    }
}

fn put_constant(
    alloc: Global,
    machine: &mut Machine,
    length: u32,
    value: u128,
    signed: bool,
) -> Result<bool, NoMemory> {
    let made = trees::constant(alloc, length, value, signed)?;
    machine.put(made)
}

fn put_signal(machine: &mut Machine, number: u32, signed: bool) -> Result<bool, NoMemory> {
    let Some(length) = signal_length(machine.signals.as_slice(), number) else {
        return Ok(false);
    };
    let made = trees::signal(number, length, signed);
    machine.put(made)
}

fn put_unary(alloc: Global, machine: &mut Machine, op: Unary) -> Result<bool, NoMemory> {
    let Some(a) = machine.pop() else {
        return Ok(false);
    };
    let made = trees::unary(alloc, op, a)?;
    machine.put(made)
}

fn put_binary(alloc: Global, machine: &mut Machine, op: Binary) -> Result<bool, NoMemory> {
    let Some(b) = machine.pop() else {
        return Ok(false);
    };
    let Some(a) = machine.pop() else {
        return Ok(false);
    };
    let made = trees::binary(alloc, op, a, b)?;
    machine.put(made)
}

fn put_mux(alloc: Global, machine: &mut Machine) -> Result<bool, NoMemory> {
    let Some(b) = machine.pop() else {
        return Ok(false);
    };
    let Some(a) = machine.pop() else {
        return Ok(false);
    };
    let Some(c) = machine.pop() else {
        return Ok(false);
    };
    let made = trees::mux(alloc, c, a, b)?;
    machine.put(made)
}

fn put_extend(
    alloc: Global,
    machine: &mut Machine,
    length: u32,
    by_sign: bool,
) -> Result<bool, NoMemory> {
    let Some(a) = machine.pop() else {
        return Ok(false);
    };
    let made = trees::extend(alloc, a, length, by_sign)?;
    machine.put(made)
}

fn put_sign(alloc: Global, machine: &mut Machine, signed: bool) -> Result<bool, NoMemory> {
    let Some(a) = machine.pop() else {
        return Ok(false);
    };
    let made = trees::with_sign(alloc, a, signed)?;
    machine.put(made)
}

fn put_select(
    alloc: Global,
    machine: &mut Machine,
    low: i64,
    length: u32,
) -> Result<bool, NoMemory> {
    let Some(base) = machine.pop() else {
        return Ok(false);
    };
    let made = trees::select(alloc, base, low, length)?;
    machine.put(made)
}

fn put_select_at(
    alloc: Global,
    machine: &mut Machine,
    offset: i64,
    down: bool,
    length: u32,
) -> Result<bool, NoMemory> {
    let Some(index) = machine.pop() else {
        return Ok(false);
    };
    let Some(base) = machine.pop() else {
        return Ok(false);
    };
    let made = trees::select_at(alloc, base, index, offset, down, length)?;
    machine.put(made)
}

fn put_repeat(alloc: Global, machine: &mut Machine, count: u32) -> Result<bool, NoMemory> {
    let Some(part) = machine.pop() else {
        return Ok(false);
    };
    let made = trees::repeat(alloc, count, part)?;
    machine.put(made)
}

fn put_concat(machine: &mut Machine, count: u32) -> Result<bool, NoMemory> {
    let Some(parts) = machine.pop_many(count)? else {
        return Ok(false);
    };
    let made = trees::concat(parts);
    machine.put(made)
}

fn put_call(alloc: Global, machine: &mut Machine) -> Result<bool, NoMemory> {
    let Some(x) = machine.pop() else {
        return Ok(false);
    };
    let made = call(alloc, x)?;
    machine.put(made)
}

// Takes a word of an expression; false where it does not fit.
fn put_expression(alloc: Global, machine: &mut Machine, word: Word) -> Result<bool, NoMemory> {
    match word {
        Word::Signal { number, signed } => put_signal(machine, number, signed),
        Word::Constant {
            length,
            value,
            signed,
        } => put_constant(alloc, machine, length, value, signed),
        Word::Unary(op) => put_unary(alloc, machine, op),
        Word::Binary(op) => put_binary(alloc, machine, op),
        Word::Mux => put_mux(alloc, machine),
        Word::Extend { length, by_sign } => put_extend(alloc, machine, length, by_sign),
        Word::Sign(signed) => put_sign(alloc, machine, signed),
        Word::Select { low, length } => put_select(alloc, machine, low, length),
        Word::SelectAt {
            offset,
            down,
            length,
        } => put_select_at(alloc, machine, offset, down, length),
        Word::Concat(count) => put_concat(machine, count),
        Word::Repeat(count) => put_repeat(alloc, machine, count),
        Word::Call => put_call(alloc, machine),
        _ => Ok(false),
    }
}

/// Takes a word; false where it does not fit.
pub fn step(alloc: Global, machine: &mut Machine, word: Word) -> Result<bool, NoMemory> {
    match word {
        Word::Write { left, blocking } => put_write(alloc, machine, left, blocking),
        Word::Left(left) => put_left(alloc, machine, left),
        Word::LeftPair => put_pair(alloc, machine),
        Word::Assign { blocking } => put_assignment(machine, blocking),
        Word::Block(count) => put_statements(machine, count, false),
        Word::Turns(count) => put_statements(machine, count, true),
        Word::If => put_branch(alloc, machine),
        Word::Item => put_item(machine),
        Word::FreeItem(free) => put_free_item(alloc, machine, free),
        Word::Arm => put_arm(machine),
        Word::Case => put_case(machine),
        Word::CaseElse => put_case_else(alloc, machine),
        _ => put_expression(alloc, machine, word),
    }
}
