ghost use Rattle.std.specs.Prelude.{◌≡◌, true, IfOk};
ghost use Rattle.bit_assigns.specs.Pieces.{bit_assigns, bit_expr, bit_left, piece, pieces, source_expr, target_left, unsigned};
ghost use Rattle.bit_assigns.specs.Sides.{is_plain_left, is_plain_right};

use crate::bits::{SignalBit, Source, Target, source_or};
use crate::lefts::left_bits;
use crate::rights::right_bits;
use bits_core::{Bits, Items, NoMemory};
use design_core::{DBase, DExpr, DLeft, DNode, Item, ItemList, Signal};
use sqlite_items::Boxed;
use std::alloc::Global;

/// An expression without a sign.
fn unsigned(length: u32, node: DNode) -> DExpr
    ensures { result ≡ unsigned length node }
{
    DExpr {
        length,
        signed: false,
        node,
    }
}

fn bit_left(bit: SignalBit) -> DLeft
    ensures { result ≡ bit_left bit }
{
    let base = DBase::Signal(bit.signal);
    if bit.length == 1 {
        DLeft::Whole { base, length: 1 }
    } else {
        DLeft::Part {
            base,
            low: i64::from(bit.bit),
            length: 1,
        }
    }
}

fn target_left(target: Target) -> DLeft
    ensures { result ≡ target_left target }
{
    match target {
        Target::Bit(bit) => bit_left(bit),
        Target::Outside(signal) => DLeft::Part {
            base: DBase::Signal(signal),
            low: -1,
            length: 1,
        },
    }
}

fn bit_expr(alloc: Global, bit: SignalBit) -> Result<DExpr, NoMemory>
    ensures { IfOk result (λ made. made ≡ bit_expr bit) }
{
    let whole = unsigned(bit.length, DNode::Signal(bit.signal));
    if bit.length == 1 {
        return Ok(whole);
    }
    let node = DNode::Select {
        base: Boxed::new(alloc, whole)?,
        low: i64::from(bit.bit),
    };
    Ok(unsigned(1, node))
}

fn known(alloc: Global, value: bool) -> Result<DExpr, NoMemory>
    ensures { IfOk result (λ made. made ≡ source_expr (Source.Known value)) }
{
    let mut bits = Bits::zeros(alloc, 1)?;
    bits.set(0, value);
    Ok(unsigned(1, DNode::Const(bits)))
}

fn source_expr(alloc: Global, source: Source) -> Result<DExpr, NoMemory>
    ensures { IfOk result (λ made. made ≡ source_expr source) }
{
    match source {
        Source::Known(value) => known(alloc, value),
        Source::Bit(bit) => bit_expr(alloc, bit),
    }
}

/// An assign of one bit.
fn piece(alloc: Global, scope: u32, target: Target, source: Source) -> Result<Item, NoMemory>
    ensures { IfOk result (λ made. made ≡ piece scope target source) }
{
    let right = source_expr(alloc, source)?;
    Ok(Item::Assign {
        scope,
        weight: 1,
        left: target_left(target),
        right,
    })
}

fn pieces(
    alloc: Global,
    scope: u32,
    targets: &[Target],
    sources: &[Source],
) -> Result<ItemList, NoMemory>
    ensures { IfOk result (λ made. made ≡ pieces scope targets.now sources.now) }
{
    let mut made = Items::new(alloc);
    for (at, target) in targets.iter().enumerate() {
        made.push(piece(alloc, scope, *target, source_or(sources, at))?)?;
    }
    Ok(made)
}

/// The assigns of one bit that a plain assign is, the lowest bit of the left side first. What the right side has above is cut. A bit of the left side outside
/// its signal makes an assign that drives nothing, and a bit that is read outside is 0 (IEEE 1364-2005, 5.2.1). Each weighs 1 and stands in the given scope.
/// The signals are those of the design. Linear in both trees and their bits.
pub fn bit_assigns(
    left: &DLeft,
    right: &DExpr,
    alloc: Global,
    signals: &[Signal],
    scope: u32,
) -> Result<ItemList, NoMemory>
    requires left { is_plain_left left.now ≡ true }
    requires right { is_plain_right right.now ≡ true }
    ensures { IfOk result (λ made. made ≡ bit_assigns signals.now scope left.now right.now) }
{
    let targets = left_bits(left, alloc, signals)?;
    let sources = right_bits(right, alloc)?;
    pieces(alloc, scope, targets.as_slice(), sources.as_slice())
}
