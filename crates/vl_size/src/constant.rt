ghost use Rattle.std.specs.Prelude.{◌≡◌, ◌<◌, ◌≤◌, ◌+◌, ◌*◌, ◌^◌, MatchOption};
ghost use Rattle.bits_core.specs.Numbers.{bit_value};
ghost use Rattle.bits_core.specs.Numbers.{number};
ghost use Rattle.bits_core.specs.Places.{exclusive_or};
ghost use Rattle.vl_size.specs.Constants as spec;

use bits_core::{Bits, Items};

/// The value of a constant expression: its bits, and whether they are a signed number.
#[derive(Drop)]
pub struct Const {
    pub bits: Bits,
    pub signed: bool,
}

/// The constants inside an expression that its lengths hang on: how often a replication repeats, the bounds of a part-select, the width of an indexed one.
/// They stand as in the source.
pub type CountList = Items<Const>;

fn with_bit(value: u64, flip: bool, bit: bool) -> u64
    requires { value < 2 ^ 62 }
    ensures { result ≡ bit_value (exclusive_or flip bit) + 2 * value }
{
    if flip == bit {
        2 * value
    } else {
        2 * value + 1
    }
}

/// The number of the bits, each flipped where asked for, if it is below 2^63. Linear in the bits.
pub fn flipped_number(bits: &Bits, flip: bool) -> Option<u64>
    ensures { MatchOption result (2 ^ 63 ≤ spec.flipped_number flip bits.now) (λ n. (n ≡ spec.flipped_number flip bits.now) × (n < 2 ^ 63)) }
{
    let mut value: u64 = 0;
    for turn in 0..bits.len() {
        if value >= 1 << 62 {
            return None;
        }
        value = with_bit(value, flip, bits.get(bits.len() - 1 - turn));
    }
    Some(value)
}

/// Whether the number is below 0.
pub fn is_negative(value: &Const) -> bool
    ensures { result ≡ spec.is_negative value.now }
{
    value.signed && value.bits.get(value.bits.len() - 1)
}

/// The number that a constant stands for, if it fits into 64 bits with a sign. Linear in its bits.
pub fn whole(value: &Const) -> Option<i64>
    ensures { result ≡ spec.whole value.now }
{
    let negative = is_negative(value);
    match flipped_number(&value.bits, negative) {
        None => None,
        Some(number) => {
            if negative {
                Some(-1 - number as i64)
            } else {
                Some(number as i64)
            }
        }
    }
}

/// The number of the value at the front.
pub fn next_value(values: &[Const]) -> Option<i64>
    ensures { result ≡ spec.next_value values.now }
{
    match values {
        [] => None,
        [first, ..] => whole(first),
    }
}

/// The values behind the first.
pub fn behind_next(values: &[Const]) -> &[Const]
    ensures { result.now ≡ spec.behind_next values.now }
{
    match values {
        [] => values,
        [_first, rest @ ..] => rest,
    }
}
