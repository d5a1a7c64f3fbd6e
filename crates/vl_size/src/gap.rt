ghost use Rattle.std.specs.Prelude.{◌≡◌, ◌+◌, ◌-◌, ◌*◌, ◌≤◌, suc, min, max, false, true};
ghost use Rattle.bits_core.specs.Numbers.{bit_value};
ghost use Rattle.vl_size.specs.Constants as spec;
ghost use Rattle.vl_size.specs.Gaps.{digit_at};

use crate::constant::{Const, flipped_number, is_negative};
use bits_core::Bits;

/// How far one number is above another, and below it; one of the two is 0. Each distance above 65,536, which no vector spans, counts as one more than that.
#[derive(Clone, Copy)]
pub struct Gap {
    pub above: u32,
    pub below: u32,
}

const FAR: u32 = 65_537;

fn at_most_far(distance: u32) -> u32
    ensures { result ≡ min 65537 distance }
{
    if distance > FAR { FAR } else { distance }
}

fn digit(bits: &Bits, flip: bool, at: usize) -> bool
    ensures { result ≡ digit_at flip bits.now at }
{
    at < bits.len() && flip != bits.get(at)
}

/// The gap of two numbers that have one more digit below, each.
fn with_digits(gap: Gap, first: bool, second: bool) -> Gap
    requires above { gap.above ≤ 65537 }
    requires below { gap.below ≤ 65537 }
    ensures above { result.above ≡ min 65537 (2 * gap.above + bit_value first - (2 * gap.below + bit_value second)) }
    ensures below { result.below ≡ min 65537 (2 * gap.below + bit_value second - (2 * gap.above + bit_value first)) }
{
    let above = 2 * gap.above + u32::from(first);
    let below = 2 * gap.below + u32::from(second);
    Gap {
        above: at_most_far(above.saturating_sub(below)),
        below: at_most_far(below.saturating_sub(above)),
    }
}

/// The gap of the numbers of the bits, each flipped where asked for. From the highest bit down, so that no number has to be held.
fn gap_of_bits(first: &Bits, second: &Bits, flip: bool) -> Gap
    ensures above { result.above ≡ min 65537 (spec.flipped_number flip first.now - spec.flipped_number flip second.now) }
    ensures below { result.below ≡ min 65537 (spec.flipped_number flip second.now - spec.flipped_number flip first.now) }
{
    let len = longer(first.len(), second.len());
    let mut gap = Gap { above: 0, below: 0 };
    for turn in 0..len {
        let at = len - 1 - turn;
        gap = with_digits(gap, digit(first, flip, at), digit(second, flip, at));
    }
    gap
}

fn longer(a: usize, b: usize) -> usize
    ensures { result ≡ max a b }
{
    if a < b { b } else { a }
}

fn near_number(bits: &Bits, flip: bool) -> u32
    ensures { result ≡ min 65537 (spec.flipped_number flip bits.now) }
{
    match flipped_number(bits, flip) {
        None => FAR,
        Some(number) => { if number > 65_536 { FAR } else { number as u32 } }
    }
}

/// From a number below 0 to one that is not.
fn across(below: &Bits, above: &Bits) -> u32
    ensures { result ≡ min 65537 (suc (spec.flipped_number false above.now + spec.flipped_number true below.now)) }
{
    at_most_far(near_number(above, false) + near_number(below, true) + 1)
}

/// How the first number lies to the second. Linear in their bits.
pub fn measure(first: &Const, second: &Const) -> Gap
    ensures above { result.above ≡ min 65537 (spec.above (spec.number_of first.now) (spec.number_of second.now)) }
    ensures below { result.below ≡ min 65537 (spec.above (spec.number_of second.now) (spec.number_of first.now)) }
{
    match (is_negative(first), is_negative(second)) {
        (false, false) => gap_of_bits(&first.bits, &second.bits, false),
        (true, true) => gap_of_bits(&second.bits, &first.bits, true),
        (false, true) => Gap {
            above: across(&second.bits, &first.bits),
            below: 0,
        },
        (true, false) => Gap {
            above: 0,
            below: across(&first.bits, &second.bits),
        },
    }
}
