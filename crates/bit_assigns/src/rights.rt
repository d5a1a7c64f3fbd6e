ghost use Rattle.std.specs.Prelude.{◌≡◌, ◌++◌, true, IfOk, OnOk, map};
ghost use Rattle.std.specs.List.{list_all};
ghost use Rattle.bit_assigns.specs.Bits.{selected_sources, side_by_side};
ghost use Rattle.bit_assigns.specs.Sides.{is_plain_right, right_bits};

use crate::bits::{Source, SourceList, push_extended, push_selected, push_span_sources};
use bits_core::{Bits, Items, NoMemory};
use design_core::{DExpr, DNode};
use std::alloc::Global;

/// Whether a right side is plain: signals, constants, selects of these at fixed places, what these are brought to in their context, and concatenations.
/// Linear in the tree.
#[cycle(plain)]
pub fn is_plain_right(right: &DExpr) -> bool
    ensures { result ≡ is_plain_right right.now }
{
    match &right.node {
        DNode::Const(_) | DNode::Signal(_) => true,
        DNode::Select { base, .. } => is_plain_right(base.get()),
        DNode::Extend { a, .. } => is_plain_right(a.get()),
        DNode::Concat(parts) => all_plain(parts.as_slice()),
        DNode::Local(_)
        | DNode::SelectAt { .. }
        | DNode::Unary { .. }
        | DNode::Binary { .. }
        | DNode::Mux { .. }
        | DNode::Repeat { .. }
        | DNode::Call { .. } => false,
    }
}

#[cycle(plain)]
fn all_plain(parts: &[DExpr]) -> bool
    ensures { result ≡ list_all is_plain_right parts.now }
{
    for part in parts {
        if !is_plain_right(part) {
            return false;
        }
    }
    true
}

/// The bits of a constant are put at the end of a list.
fn push_constant(bits: &Bits, all: &mut Vec<Source>) -> Result<(), NoMemory>
    ensures { OnOk result (all.new.items ≡ all.old.items ++ map Source.Known bits.now) }
{
    for at in 0..bits.len() {
        all.push(Source::Known(bits.get(at)))?;
    }
    Ok(())
}

/// The bits of a right side are put at the end of a list. A select of a signal takes its own bits alone.
#[cycle(right)]
fn push_right(right: &DExpr, alloc: Global, all: &mut Vec<Source>) -> Result<(), NoMemory>
    ensures { OnOk result (all.new.items ≡ all.old.items ++ right_bits right.now) }
{
    let length = right.length;
    match &right.node {
        DNode::Const(bits) => push_constant(bits, all),
        DNode::Signal(signal) => push_span_sources(*signal, length, 0, length, all),
        DNode::Select { base, low } => push_select(base.get(), alloc, *low, length, all),
        DNode::Extend { a, by_sign } => {
            let mut inside = Vec::new(alloc);
            push_right(a.get(), alloc, &mut inside)?;
            push_extended(inside.as_slice(), *by_sign, length, all)
        }
        DNode::Concat(parts) => push_rights(parts.as_slice(), alloc, all),
        DNode::Local(_)
        | DNode::SelectAt { .. }
        | DNode::Unary { .. }
        | DNode::Binary { .. }
        | DNode::Mux { .. }
        | DNode::Repeat { .. }
        | DNode::Call { .. } => Ok(()),
    }
}

/// The same for bits of an expression from a place on, so many.
#[cycle(right)]
fn push_select(
    base: &DExpr,
    alloc: Global,
    low: i64,
    length: u32,
    all: &mut Vec<Source>,
) -> Result<(), NoMemory>
    ensures { OnOk result (all.new.items ≡ all.old.items ++ selected_sources low length (right_bits base.now)) }
{
    if let DNode::Signal(signal) = &base.node {
        return push_span_sources(*signal, base.length, low, length, all);
    }
    let mut inside = Vec::new(alloc);
    push_right(base, alloc, &mut inside)?;
    push_selected(inside.as_slice(), low, length, all)
}

/// The same for expressions side by side, the last the lowest.
#[cycle(right)]
fn push_rights(parts: &[DExpr], alloc: Global, all: &mut Vec<Source>) -> Result<(), NoMemory>
    ensures { OnOk result (all.new.items ≡ all.old.items ++ side_by_side (map right_bits parts.now)) }
{
    let count = parts.len();
    for at in 0..count {
        push_right(&parts[count - 1 - at], alloc, all)?;
    }
    Ok(())
}

/// What the bits of a plain right side are, the lowest first. Linear in the tree, the lengths of its constants, and its bits.
pub fn right_bits(right: &DExpr, alloc: Global) -> Result<SourceList, NoMemory>
    requires plain { is_plain_right right.now ≡ true }
    ensures { IfOk result (λ bits. bits ≡ right_bits right.now) }
{
    let mut all = Vec::new(alloc);
    push_right(right, alloc, &mut all)?;
    Ok(Items::of(all))
}
