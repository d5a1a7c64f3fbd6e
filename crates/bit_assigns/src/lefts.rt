ghost use Rattle.std.specs.Prelude.{◌≡◌, ◌++◌, true, IfOk, OnOk, map};
ghost use Rattle.std.specs.List.{list_all};
ghost use Rattle.design_core.specs.Parts.{length_at};
ghost use Rattle.design_core.specs.Terms.{size_of};
ghost use Rattle.bit_assigns.specs.Bits.{side_by_side};
ghost use Rattle.bit_assigns.specs.Sides.{is_plain_left, left_bits};

use crate::bits::{Target, TargetList, push_base_targets};
use bits_core::{Items, NoMemory};
use design_core::{DBase, DLeft, Signal};
use std::alloc::Global;

/// Whether a left side is plain: signals, bits of signals at fixed places, and concatenations of these. Linear in the tree.
#[cycle(plain)]
pub fn is_plain_left(left: &DLeft) -> bool
    ensures { result ≡ is_plain_left left.now }
{
    match left {
        DLeft::Whole { base, .. } | DLeft::Part { base, .. } => matches!(base, DBase::Signal(_)),
        DLeft::At { .. } => false,
        DLeft::Concat(parts) => all_plain(parts.as_slice()),
    }
}

#[cycle(plain)]
fn all_plain(parts: &[DLeft]) -> bool
    ensures { result ≡ list_all is_plain_left parts.now }
{
    for part in parts {
        if !is_plain_left(part) {
            return false;
        }
    }
    true
}

/// The length of what a left side names; of a local the most that a vector has.
fn size_in(signals: &[Signal], base: DBase) -> u32
    ensures { result ≡ size_of (length_at signals.now) base }
{
    match base {
        DBase::Signal(number) => match signals.get(number as usize) {
            Some(signal) => signal.length,
            None => 0,
        },
        DBase::Local(_) => 65_536,
    }
}

/// The bits of a left side are put at the end of a list.
#[cycle(left)]
fn push_left(left: &DLeft, signals: &[Signal], all: &mut Vec<Target>) -> Result<(), NoMemory>
    ensures { OnOk result (all.new.items ≡ all.old.items ++ left_bits (length_at signals.now) left.now) }
{
    match left {
        DLeft::Whole { base, length } => push_base_targets(*base, *length, 0, *length, all),
        DLeft::Part { base, low, length } => {
            push_base_targets(*base, size_in(signals, *base), *low, *length, all)
        }
        DLeft::At { .. } => Ok(()),
        DLeft::Concat(parts) => push_lefts(parts.as_slice(), signals, all),
    }
}

/// The same for left sides side by side, the last the lowest.
#[cycle(left)]
fn push_lefts(parts: &[DLeft], signals: &[Signal], all: &mut Vec<Target>) -> Result<(), NoMemory>
    ensures { OnOk result (all.new.items ≡ all.old.items ++ side_by_side (map (left_bits (length_at signals.now)) parts.now)) }
{
    let count = parts.len();
    for at in 0..count {
        push_left(&parts[count - 1 - at], signals, all)?;
    }
    Ok(())
}

/// Where the bits of a plain left side lie, the lowest first. The signals are those of the design. Linear in the tree and its bits.
pub fn left_bits(left: &DLeft, alloc: Global, signals: &[Signal]) -> Result<TargetList, NoMemory>
    requires plain { is_plain_left left.now ≡ true }
    ensures { IfOk result (λ bits. bits ≡ left_bits (length_at signals.now) left.now) }
{
    let mut all = Vec::new(alloc);
    push_left(left, signals, &mut all)?;
    Ok(Items::of(all))
}
