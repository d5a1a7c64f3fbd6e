ghost use Rattle.std.specs.Prelude.{◌≡◌, ◌∷◌, [], ◌≤◌, ◌*◌, max, IfOk, map};
ghost use Rattle.vl_size.specs.Texts.{capped as capped_of};
ghost use Rattle.std.specs.Option.{option_copied};
ghost use Rattle.vl_size.specs.Constants.{number_of, next_number, behind_next};
ghost use Rattle.vl_size.specs.Nodes as spec;
ghost use Rattle.vl_size.specs.Sizings.{sizing_of, faults_of as lowest_of, are_constant as all_constant, is_some_empty as any_empty};

use crate::constant::Const;
use crate::gap::measure;
use crate::numbers::{capped, number_size};
use crate::operators::{BinaryOperator, SystemFunction, UnaryOperator};
use crate::table::{NameKind, SizeEntry};
use crate::tree::{Narrow, Node, Operands, Size, Sizing};
use bits_core::{Items, NoMemory};
use std::alloc::Global;
use vl_tree::{Code, lower, where_true};

fn faults_of(parts: &[Sizing]) -> Option<Code>
    ensures { result ≡ lowest_of parts.now }
{
    let mut lowest = None;
    for part in parts {
        lowest = lower(lowest, part.node.fault);
    }
    lowest
}

fn are_constant(parts: &[Sizing]) -> bool
    ensures { result ≡ all_constant parts.now }
{
    for part in parts {
        if !part.node.constant {
            return false;
        }
    }
    true
}

fn is_some_empty(parts: &[Sizing]) -> bool
    ensures { result ≡ any_empty parts.now }
{
    for part in parts {
        if part.node.size.length == 0 {
            return true;
        }
    }
    false
}

fn longer(a: u32, b: u32) -> u32
    ensures { result ≡ max a b }
{
    if a < b { b } else { a }
}

/// An expression of these parts; one that is too long is a fault, and its length is then 1.
fn made(
    size: Size,
    operands: Operands,
    narrow: Narrow,
    constant: bool,
    fault: Option<Code>,
    parts: Items<Sizing>,
) -> Sizing
    ensures { result ≡ spec.made size operands narrow constant fault parts }
{
    let long = size.length > 65_536;
    let length = if long { 1 } else { size.length };
    let constant = constant && are_constant(parts.as_slice());
    let own = lower(fault, where_true(long, Code::BadRange));
    let fault = lower(faults_of(parts.as_slice()), own);
    let size = Size {
        length,
        signed: size.signed,
    };
    let node = Node {
        size,
        least: 0,
        operands,
        narrow,
        constant,
        fault,
    };
    Sizing { node, parts }
}

/// An operator and its operands, of which none has the length 0.
fn applied(size: Size, operands: Operands, narrow: Narrow, parts: Items<Sizing>) -> Sizing
    ensures { result ≡ spec.applied size operands narrow parts }
{
    let fault = where_true(is_some_empty(parts.as_slice()), Code::BadRange);
    made(size, operands, narrow, true, fault, parts)
}

fn one(alloc: Global, a: Sizing) -> Result<Items<Sizing>, NoMemory>
    ensures { IfOk result (λ all. all ≡ a ∷ []) }
{
    let mut all = Items::new(alloc);
    all.push(a)?;
    Ok(all)
}

fn two(alloc: Global, a: Sizing, b: Sizing) -> Result<Items<Sizing>, NoMemory>
    ensures { IfOk result (λ all. all ≡ a ∷ b ∷ []) }
{
    let mut all = Items::new(alloc);
    all.push(a)?;
    all.push(b)?;
    Ok(all)
}

fn three(alloc: Global, a: Sizing, b: Sizing, c: Sizing) -> Result<Items<Sizing>, NoMemory>
    ensures { IfOk result (λ all. all ≡ a ∷ b ∷ c ∷ []) }
{
    let mut all = Items::new(alloc);
    all.push(a)?;
    all.push(b)?;
    all.push(c)?;
    Ok(all)
}

const BIT: Size = Size {
    length: 1,
    signed: false,
};

fn joint_size(a: &Sizing, b: &Sizing) -> Size
    ensures { result ≡ spec.joint_size a.now b.now }
{
    let length = longer(a.node.size.length, b.node.size.length);
    let signed = a.node.size.signed && b.node.size.signed;
    Size { length, signed }
}

/// A number.
pub fn number_node(alloc: Global, text: &[u8]) -> Sizing
    ensures { result ≡ spec.number_node text.now }
{
    let size = number_size(text);
    made(
        size,
        Operands::Apart,
        Narrow::Nothing,
        true,
        None,
        Items::new(alloc),
    )
}

/// An operator before its operand.
pub fn unary_node(alloc: Global, op: UnaryOperator, a: Sizing) -> Result<Sizing, NoMemory>
    ensures { IfOk result (λ made. made ≡ spec.unary_node op a) }
{
    let size = a.node.size;
    let parts = one(alloc, a)?;
    Ok(match op {
        UnaryOperator::Plus | UnaryOperator::Invert => {
            applied(size, Operands::Shared, Narrow::Nothing, parts)
        }
        UnaryOperator::Minus => applied(size, Operands::Shared, Narrow::Context, parts),
        _ => applied(BIT, Operands::Apart, Narrow::Nothing, parts),
    })
}

/// An operator between its operands.
pub fn binary_node(
    alloc: Global,
    op: BinaryOperator,
    a: Sizing,
    b: Sizing,
) -> Result<Sizing, NoMemory>
    ensures { IfOk result (λ made. made ≡ spec.binary_node op a b) }
{
    let left = a.node.size;
    let joint = joint_size(&a, &b);
    let parts = two(alloc, a, b)?;
    Ok(joined(op, left, joint, parts))
}

fn joined(op: BinaryOperator, left: Size, joint: Size, parts: Items<Sizing>) -> Sizing
    ensures { result ≡ spec.joined op left joint parts }
{
    match op {
        BinaryOperator::Add
        | BinaryOperator::Subtract
        | BinaryOperator::Multiply
        | BinaryOperator::Divide
        | BinaryOperator::Remainder => applied(joint, Operands::Shared, Narrow::Context, parts),
        BinaryOperator::Power => {
            applied(left, Operands::FirstShared, Narrow::ContextAndSecond, parts)
        }
        BinaryOperator::And | BinaryOperator::Or | BinaryOperator::Xor | BinaryOperator::Xnor => {
            applied(joint, Operands::Shared, Narrow::Nothing, parts)
        }
        BinaryOperator::Less
        | BinaryOperator::LessEqual
        | BinaryOperator::Greater
        | BinaryOperator::GreaterEqual => {
            applied(BIT, Operands::Compared, Narrow::Operands, parts)
        }
        BinaryOperator::Equal | BinaryOperator::NotEqual => {
            applied(BIT, Operands::Compared, Narrow::Nothing, parts)
        }
        BinaryOperator::LogicAnd | BinaryOperator::LogicOr => {
            applied(BIT, Operands::Apart, Narrow::Nothing, parts)
        }
        BinaryOperator::ShiftLeft
        | BinaryOperator::ShiftRight
        | BinaryOperator::ShiftLeftSigned
        | BinaryOperator::ShiftRightSigned => {
            applied(left, Operands::FirstShared, Narrow::Second, parts)
        }
    }
}

/// A test and the two that it chooses from.
pub fn choice_node(alloc: Global, test: Sizing, yes: Sizing, no: Sizing) -> Result<Sizing, NoMemory>
    ensures { IfOk result (λ made. made ≡ spec.choice_node test yes no) }
{
    let size = joint_size(&yes, &no);
    let parts = three(alloc, test, yes, no)?;
    Ok(applied(size, Operands::FirstApart, Narrow::Nothing, parts))
}

/// A system function and its operand.
pub fn system_node(alloc: Global, function: SystemFunction, a: Sizing) -> Result<Sizing, NoMemory>
    ensures { IfOk result (λ made. made ≡ spec.system_node function a) }
{
    let length = a.node.size.length;
    let size = match function {
        SystemFunction::Signed => Size {
            length,
            signed: true,
        },
        SystemFunction::Unsigned => Size {
            length,
            signed: false,
        },
        SystemFunction::CeilingLog => Size {
            length: 32,
            signed: true,
        },
    };
    Ok(applied(size, Operands::Apart, Narrow::Nothing, one(alloc, a)?))
}

/// An expression in brackets.
pub fn group_node(alloc: Global, a: Sizing) -> Result<Sizing, NoMemory>
    ensures { IfOk result (λ made. made ≡ spec.group_node a) }
{
    let size = a.node.size;
    let parts = one(alloc, a)?;
    Ok(made(size, Operands::Shared, Narrow::Nothing, true, None, parts))
}

/// The sum of the lengths, capped.
pub fn total(parts: &[Sizing]) -> u32
    ensures value { result ≡ spec.total parts.now }
    ensures most { result ≤ 65537 }
{
    let mut sum: u32 = 0;
    for part in parts {
        if part.node.size.length > 65_536 {
            return 65_537;
        }
        sum += part.node.size.length;
        if sum > 65_536 {
            return 65_537;
        }
    }
    sum
}

/// Expressions one behind the other.
pub fn concat_node(parts: Items<Sizing>) -> Sizing
    ensures { result ≡ spec.concat_node parts }
{
    let length = total(parts.as_slice());
    let size = Size {
        length,
        signed: false,
    };
    let fault = where_true(length == 0, Code::BadRange);
    made(size, Operands::Apart, Narrow::Nothing, true, fault, parts)
}

fn times(count: Option<i64>, length: u32) -> u32
    requires { length ≤ 65537 }
    ensures { result ≡ spec.times count length }
{
    match count {
        None => 1,
        Some(number) => {
            if number < 0 {
                1
            } else {
                capped_product(number as u64, length)
            }
        }
    }
}

fn capped_product(count: u64, length: u32) -> u32
    requires { length ≤ 65537 }
    ensures { result ≡ capped_of (count * length) }
{
    if length == 0 {
        return 0;
    }
    if count > 65_536 {
        return 65_537;
    }
    capped(count * u64::from(length))
}

fn is_bad_count(count: Option<i64>) -> bool
    ensures { result ≡ spec.is_bad_count count }
{
    match count {
        None => true,
        Some(number) => number < 0,
    }
}

fn is_no_copy(count: Option<i64>) -> bool
    ensures { result ≡ spec.is_no_copy count }
{
    match count {
        None => false,
        Some(number) => number == 0,
    }
}

fn copies_of(count: Option<i64>, parts: Items<Sizing>) -> Sizing
    ensures { result ≡ sizing_of (spec.copies_node count parts) parts }
{
    let inner = total(parts.as_slice());
    let size = Size {
        length: times(count, inner),
        signed: false,
    };
    let fault = where_true(is_bad_count(count) || inner == 0, Code::BadRange);
    made(size, Operands::Apart, Narrow::Nothing, true, fault, parts)
}

/// Expressions one behind the other, as often as a count says. What is copied no time is dropped, and so is constant.
pub fn repeat_node(count: Option<i64>, parts: Items<Sizing>) -> Sizing
    ensures { result ≡ spec.repeat_node count parts }
{
    let copies = copies_of(count, parts);
    let node = Node {
        constant: copies.node.constant || is_no_copy(count),
        ..copies.node
    };
    copies.with_node(node)
}

fn is_kind(kind: NameKind, other: NameKind) -> bool
    ensures { result ≡ spec.is_kind kind other }
{
    kind == other
}

/// A name without selects.
pub fn name_node(alloc: Global, entry: Option<&SizeEntry>) -> Sizing
    ensures { result ≡ spec.name_node (option_copied entry.entry) }
{
    let parts = Items::new(alloc);
    let (size, constant, fault) = match entry {
        None => (BIT, true, Some(Code::UnknownName)),
        Some(entry) => {
            let size = Size {
                length: entry.length,
                signed: entry.signed,
            };
            let unreadable = is_kind(entry.kind, NameKind::Function);
            (
                size,
                is_kind(entry.kind, NameKind::Constant),
                where_true(unreadable, Code::UnknownName),
            )
        }
    };
    made(
        size,
        Operands::Apart,
        Narrow::Nothing,
        constant,
        fault,
        parts,
    )
}

/// A call with these arguments.
pub fn call_node(entry: Option<&SizeEntry>, parts: Items<Sizing>) -> Sizing
    ensures { result ≡ spec.call_node (option_copied entry.entry) parts }
{
    match entry {
        None => {
            let fault = Some(Code::UnknownName);
            made(BIT, Operands::Apart, Narrow::Nothing, false, fault, parts)
        }
        Some(entry) => {
            let size = Size {
                length: entry.length,
                signed: entry.signed,
            };
            let function = is_kind(entry.kind, NameKind::Function);
            let unknown = where_true(!function, Code::UnknownName);
            let empty = where_true(is_some_empty(parts.as_slice()), Code::BadRange);
            let fault = lower(unknown, empty);
            made(size, Operands::Apart, Narrow::Nothing, false, fault, parts)
        }
    }
}

fn is_bare(entry: &SizeEntry) -> bool
    ensures { result ≡ spec.is_bare entry.now }
{
    is_kind(entry.kind, NameKind::Signal) && (!entry.ranged && entry.length == 1)
}

/// Whether the range of a name falls: its left bound is not below its right one, or it has none.
pub fn is_falling(entry: &SizeEntry) -> bool
    ensures { result ≡ spec.is_falling entry.now }
{
    !entry.ranged || !(entry.high < entry.low)
}

fn select_node(entry: Option<&SizeEntry>, width: u32, bad: bool, parts: Items<Sizing>) -> Sizing
    ensures { result ≡ spec.select_node (option_copied entry.entry) width bad parts }
{
    let size = Size {
        length: width,
        signed: false,
    };
    let narrow = Narrow::VariableIndex;
    match entry {
        None => {
            let fault = Some(Code::UnknownName);
            made(size, Operands::Apart, narrow, true, fault, parts)
        }
        Some(entry) => {
            let constant = is_kind(entry.kind, NameKind::Constant);
            let unreadable = is_kind(entry.kind, NameKind::Function);
            let unknown = where_true(unreadable, Code::UnknownName);
            let wrong = is_bare(entry) || (bad || is_some_empty(parts.as_slice()));
            let fault = lower(unknown, where_true(wrong, Code::BadRange));
            made(size, Operands::Apart, narrow, constant, fault, parts)
        }
    }
}

/// A select of one bit.
pub fn index_node(
    alloc: Global,
    entry: Option<&SizeEntry>,
    index: Sizing,
) -> Result<Sizing, NoMemory>
    ensures { IfOk result (λ made. made ≡ spec.index_node (option_copied entry.entry) index) }
{
    Ok(select_node(entry, 1, false, one(alloc, index)?))
}

/// A width of 1 or more.
pub fn width_of(width: Option<i64>) -> u32
    ensures { result ≡ spec.width_of width }
{
    match width {
        None => 1,
        Some(number) => { if number < 1 { 1 } else { capped(number as u64) } }
    }
}

fn is_bad_width(width: Option<i64>) -> bool
    ensures { result ≡ spec.is_bad_width width }
{
    match width {
        None => true,
        Some(number) => number < 1,
    }
}

/// A select of so many bits from an index upwards, or downwards.
pub fn part_node(
    alloc: Global,
    entry: Option<&SizeEntry>,
    index: Sizing,
    width: Option<i64>,
) -> Result<Sizing, NoMemory>
    ensures { IfOk result (λ made. made ≡ spec.part_node (option_copied entry.entry) index width) }
{
    let parts = one(alloc, index)?;
    Ok(select_node(entry, width_of(width), is_bad_width(width), parts))
}

fn span(high: &Const, low: &Const) -> u32
    ensures { result ≡ spec.span (number_of high.now) (number_of low.now) }
{
    let gap = measure(high, low);
    capped(u64::from(longer(gap.above, gap.below)) + 1)
}

fn is_against(entry: Option<&SizeEntry>, high: &Const, low: &Const) -> bool
    ensures { result ≡ spec.is_against (option_copied entry.entry) (number_of high.now) (number_of low.now) }
{
    match entry {
        None => false,
        Some(entry) => {
            let gap = measure(high, low);
            if is_falling(entry) {
                gap.below > 0
            } else {
                gap.above > 0
            }
        }
    }
}

/// A select from one bound to another, the first two of the values.
pub fn range_node(alloc: Global, entry: Option<&SizeEntry>, values: &[Const]) -> Sizing
    ensures { result ≡ spec.range_node (option_copied entry.entry) (next_number values.now) (next_number (behind_next values.now)) }
{
    let parts = Items::new(alloc);
    match values {
        [high, low, ..] => {
            let against = is_against(entry, high, low);
            select_node(entry, span(high, low), against, parts)
        }
        _ => select_node(entry, 1, true, parts),
    }
}
