ghost use Rattle.std.specs.Prelude.{◌≡◌, Bool, false, IfOk, IfSome, length, map};
ghost use Rattle.design_core.specs.Formed.{has_length};
ghost use Rattle.run_cases.specs.Trees.{IsExpr, IsLeft, IsStmt};

use crate::machine::Machine;
use crate::steps::signal_length;
use crate::words::Left;
use bits_core::{Bits, NoMemory};
use design_core::{DBase, DExpr};
use formed_trees::{self as trees, SizedLeft};
use std::alloc::Global;

fn whole(signals: &[Bits], number: u32) -> Option<SizedLeft>
    ensures { IfSome result (IsLeft signals.now) }
{
    let length = signal_length(signals, number)?;
    let left = trees::whole(DBase::Signal(number), length)?;
    Some(SizedLeft { left, length })
}

fn part(signals: &[Bits], number: u32, low: i64, length: u32) -> Option<SizedLeft>
    ensures { IfSome result (IsLeft signals.now) }
{
    if number as usize >= signals.len() {
        return None;
    }
    let left = trees::part(DBase::Signal(number), low, length)?;
    Some(SizedLeft { left, length })
}

fn at(
    alloc: Global,
    signals: &[Bits],
    number: u32,
    index: DExpr,
    offset: i64,
    down: bool,
    length: u32,
) -> Result<Option<SizedLeft>, NoMemory>
    requires { IsExpr signals.now index }
    ensures { IfOk result (λ made. IfSome made (IsLeft signals.now)) }
{
    if number as usize >= signals.len() {
        return Ok(None);
    }
    match trees::at(alloc, DBase::Signal(number), index, offset, down, length)? {
        None => Ok(None),
        Some(left) => Ok(Some(SizedLeft { left, length })),
    }
}

fn put_at(
    alloc: Global,
    machine: &mut Machine,
    number: u32,
    offset: i64,
    down: bool,
    length: u32,
) -> Result<bool, NoMemory> {
    let Some(index) = machine.pop() else {
        return Ok(false);
    };
    let made = at(
        alloc,
        machine.signals.as_slice(),
        number,
        index,
        offset,
        down,
        length,
    )?;
    machine.put_left(made)
}

/// A left side.
pub fn put_left(alloc: Global, machine: &mut Machine, left: Left) -> Result<bool, NoMemory> {
    match left {
        Left::Whole(number) => {
            let made = whole(machine.signals.as_slice(), number);
            machine.put_left(made)
        }
        Left::Part {
            number,
            low,
            length,
        } => {
            let made = part(machine.signals.as_slice(), number, low, length);
            machine.put_left(made)
        }
        Left::At {
            number,
            offset,
            down,
            length,
        } => put_at(alloc, machine, number, offset, down, length),
        Left::Pair { high, low } => put_two(alloc, machine, high, low),
    }
}

fn put_two(alloc: Global, machine: &mut Machine, high: u32, low: u32) -> Result<bool, NoMemory> {
    let high = whole(machine.signals.as_slice(), high);
    if !machine.put_left(high)? {
        return Ok(false);
    }
    let low = whole(machine.signals.as_slice(), low);
    if !machine.put_left(low)? {
        return Ok(false);
    }
    put_pair(alloc, machine)
}

/// The two left sides on top side by side, the upper one the lower half.
pub fn put_pair(alloc: Global, machine: &mut Machine) -> Result<bool, NoMemory> {
    let Some(low) = machine.pop_left() else {
        return Ok(false);
    };
    let Some(high) = machine.pop_left() else {
        return Ok(false);
    };
    let Some(length) = high.length.checked_add(low.length) else {
        return Ok(false);
    };
    let made = trees::pair(alloc, high.left, high.length, low.left, low.length, length)?;
    let Some(left) = made else {
        return Ok(false);
    };
    machine.put_left(Some(SizedLeft { left, length }))
}

/// An assignment of the expression on top to the left side on top.
pub fn put_assignment(machine: &mut Machine, blocking: bool) -> Result<bool, NoMemory> {
    let Some(left) = machine.pop_left() else {
        return Ok(false);
    };
    let Some(right) = machine.pop() else {
        return Ok(false);
    };
    let made = trees::write(left.left, left.length, right, blocking);
    machine.put_stmt(made)
}

/// An assignment of the expression on top.
pub fn put_write(
    alloc: Global,
    machine: &mut Machine,
    left: Left,
    blocking: bool,
) -> Result<bool, NoMemory> {
    if !put_left(alloc, machine, left)? {
        return Ok(false);
    }
    put_assignment(machine, blocking)
}

/// A block of the statements on top, or the turns of a loop.
pub fn put_statements(machine: &mut Machine, count: u32, is_loop: bool) -> Result<bool, NoMemory> {
    let Some(parts) = machine.pop_stmts(count)? else {
        return Ok(false);
    };
    let made = if is_loop {
        trees::turns(parts)
    } else {
        trees::block(parts)
    };
    machine.put_stmt(Some(made))
}

/// One of the two statements on top by the expression on top.
pub fn put_branch(alloc: Global, machine: &mut Machine) -> Result<bool, NoMemory> {
    let Some(test) = machine.pop() else {
        return Ok(false);
    };
    let Some(no) = machine.pop_stmt() else {
        return Ok(false);
    };
    let Some(yes) = machine.pop_stmt() else {
        return Ok(false);
    };
    let made = trees::branch(alloc, test, yes, no)?;
    machine.put_stmt(Some(made))
}

/// An item of a case.
pub fn put_item(machine: &mut Machine) -> Result<bool, NoMemory> {
    let Some(value) = machine.pop() else {
        return Ok(false);
    };
    let made = trees::item(value);
    machine.put_item(Some(made))
}

/// An item of a case with free bits.
pub fn put_free_item(alloc: Global, machine: &mut Machine, free: u128) -> Result<bool, NoMemory> {
    let Some(value) = machine.pop() else {
        return Ok(false);
    };
    let made = trees::free_item(alloc, value, free)?;
    machine.put_item(made)
}

/// An arm of the items that wait, with the statement on top.
pub fn put_arm(machine: &mut Machine) -> Result<bool, NoMemory> {
    let items = machine.take_items();
    let Some(body) = machine.pop_stmt() else {
        return Ok(false);
    };
    let made = trees::arm(items, body);
    machine.put_arm(made)
}

/// A case of the arms that wait, with the expression on top.
pub fn put_case(machine: &mut Machine) -> Result<bool, NoMemory> {
    let arms = machine.take_arms();
    let Some(selector) = machine.pop() else {
        return Ok(false);
    };
    let made = trees::case(selector, arms);
    machine.put_stmt(made)
}

/// A case of the arms that wait, with the expression on top, and the statement on top as its default.
pub fn put_case_else(alloc: Global, machine: &mut Machine) -> Result<bool, NoMemory> {
    let arms = machine.take_arms();
    let Some(selector) = machine.pop() else {
        return Ok(false);
    };
    let Some(rest) = machine.pop_stmt() else {
        return Ok(false);
    };
    let made = trees::case_else(alloc, selector, arms, rest)?;
    machine.put_stmt(made)
}
