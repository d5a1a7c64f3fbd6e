ghost use Rattle.std.specs.Prelude.{◌≡◌, ◌+◌, ◌*◌, ◌^◌, ◌<◌, ◌≤◌, IfOk, length, map, not};
ghost use Rattle.std.specs.List.{list_all};
ghost use Rattle.bits_core.specs.Numbers.{bit_value, number};
ghost use Rattle.bits_core.specs.Places.{is_set};
ghost use Rattle.design_core.specs.Operators.{is_equal, is_odd, one_bit, negated};

use bits_core::{Bits, NoMemory};
use std::alloc::Global;

/// One bit as a bit list.
pub fn one(alloc: Global, bit: bool) -> Result<Bits, NoMemory>
    ensures { IfOk result (λ r. r ≡ one_bit bit) }
{
    let mut out = Bits::zeros(alloc, 1)?;
    out.set(0, bit);
    Ok(out)
}

/// Whether some bit is 1.
pub fn some_set(bits: &Bits) -> bool
    ensures { result ≡ is_set bits.now }
{
    for at in 0..bits.len() {
        if bits.get(at) {
            return true;
        }
    }
    false
}

/// Whether each bit is 1.
pub fn all_set(bits: &Bits) -> bool
    ensures { result ≡ list_all (λ bit. bit) bits.now }
{
    for at in 0..bits.len() {
        if !bits.get(at) {
            return false;
        }
    }
    true
}

/// Whether an odd number of bits is 1.
pub fn odd_set(bits: &Bits) -> bool
    ensures { result ≡ is_odd bits.now }
{
    let mut odd = false;
    for at in 0..bits.len() {
        odd = odd ^ bits.get(at);
    }
    odd
}

/// The number with one more bit below.
fn next_number(number: u128, bit: bool) -> u128
    requires { number < 2 ^ 127 }
    ensures { result ≡ bit_value bit + 2 * number }
{
    if bit { 2 * number + 1 } else { 2 * number }
}

/// The number that at most 128 bits stand for.
pub fn amount(bits: &Bits) -> u128
    requires { length bits.now ≤ 128 }
    ensures { result ≡ number bits.now }
{
    let len = bits.len();
    let mut number = 0;
    for done in 0..len {
        number = next_number(number, bits.get(len - 1 - done));
    }
    number
}

/// Each bit inverted.
pub fn inverted(alloc: Global, bits: &Bits) -> Result<Bits, NoMemory>
    ensures { IfOk result (λ r. r ≡ map not bits.now) }
{
    let mut out = Bits::copy(alloc, bits)?;
    for at in 0..bits.len() {
        out.set(at, !bits.get(at));
    }
    Ok(out)
}

/// The number with the other sign.
pub fn negative(alloc: Global, bits: &Bits) -> Result<Bits, NoMemory>
    ensures { IfOk result (λ r. r ≡ negated bits.now) }
{
    let zero = Bits::zeros(alloc, bits.len())?;
    let mut out = Bits::zeros(alloc, bits.len())?;
    Bits::sub_into(&zero, bits, &mut out);
    Ok(out)
}

/// Whether two bit lists are the same, bit for bit.
pub fn same(a: &Bits, b: &Bits) -> bool
    requires { length a.now ≡ length b.now }
    ensures { result ≡ is_equal a.now b.now }
{
    Bits::eq(a, b)
}
