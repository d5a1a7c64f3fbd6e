ghost use Rattle.std.specs.Prelude.{◌≡◌, ℕ, ◌+◌, ◌-◌, ◌<◌, ◌≤◌, Bool, true, false, ◌&&◌, ◌||◌, length, pos, ◌+ℤ◌, ◌-ℤ◌, nat_lt, int_lt, if◌then◌else◌};
ghost use Rattle.bits_core.specs.Places.{bit_at, bit_at_int, by_place, exclusive_or, extended, placed, selected, shifted_left, shifted_right, sign_of, written, zip_with};
ghost use Rattle.bits_core.specs.Shifted.{shifted};
ghost use Rattle.bits_core.specs.Joint.{joint_of};

/// Which operator joins two bits.
#[derive(Clone, Copy, Debug, PartialEq, Eq)]
pub enum Joint {
    And,
    Or,
    Xor,
}

/// Which way the bits move, and what comes in behind them (IEEE 1364-2005, 5.1.12).
#[derive(Clone, Copy, Debug, PartialEq, Eq)]
pub enum Shift {
    /// Up, filled with 0.
    Left,
    /// Down, filled with 0.
    Right,
    /// Down, filled with the highest bit.
    RightSigned,
}

/// What two bits make, joined.
fn joined(joint: Joint, a: bool, b: bool) -> bool
    ensures { result ≡ joint_of joint a b }
{
    match joint {
        Joint::And => a & b,
        Joint::Or => a | b,
        Joint::Xor => a ^ b,
    }
}

/// Joins two lists bit by bit.
pub fn join_all(joint: Joint, a: &[bool], b: &[bool], out: &mut [bool])
    requires first { length a.now ≡ length out.old }
    requires second { length b.now ≡ length out.old }
    ensures { out.new ≡ zip_with (joint_of joint) a.now b.now }
{
    for at in 0..out.len() {
        out[at] = joined(joint, a[at], b[at]);
    }
}

/// A list of bits by its places.
trait ByPlace {
    ghost value: { Self → ℕ → Bool };

    /// The bit at a place.
    fn bit(&self, at: usize) -> bool
        requires { at < 65536 }
        ensures { result ≡ value self.now at };
}

/// Writes each place of a list.
fn fill<P: ByPlace>(places: &P, out: &mut [bool])
    requires { length out.old ≤ 65536 }
    ensures { out.new ≡ by_place (length out.old) (P.value places.now) }
{
    for at in 0..out.len() {
        out[at] = places.bit(at);
    }
}

/// Bits brought to another length.
#[derive(Clone, Copy)]
struct Extended<'a> {
    bits: &'a [bool],
    by_sign: bool,
}

impl<'a> ByPlace for Extended<'a> {
    ghost value = { λ it k. if nat_lt k (length it.bits.now) then bit_at it.bits.now k else (it.by_sign && sign_of it.bits.now) };

    fn bit(&self, at: usize) -> bool {
        let len = self.bits.len();
        if at < len {
            self.bits[at]
        } else {
            self.by_sign && len > 0 && self.bits[len - 1]
        }
    }
}

/// The bit at a place, 0 outside.
fn bit_or_zero(bits: &[bool], low: i64, at: usize) -> bool
    requires { at < 65536 }
    ensures { result ≡ bit_at_int bits.now (low +ℤ pos at) }
{
    match low.checked_add(at as i64) {
        Some(place) => {
            if place < 0 {
                return false;
            }
            let place = place as usize;
            if place < bits.len() {
                bits[place]
            } else {
                false
            }
        }
        None => false,
    }
}

/// Bits from a place on.
#[derive(Clone, Copy)]
struct Selected<'a> {
    bits: &'a [bool],
    low: i64,
}

impl<'a> ByPlace for Selected<'a> {
    ghost value = { λ it k. bit_at_int it.bits.now (it.low +ℤ pos k) };

    fn bit(&self, at: usize) -> bool {
        bit_or_zero(self.bits, self.low, at)
    }
}

/// Bits moved up.
#[derive(Clone, Copy)]
struct MovedUp<'a> {
    bits: &'a [bool],
    by: u128,
}

impl<'a> ByPlace for MovedUp<'a> {
    ghost value = { λ it k. if nat_lt k it.by then false else bit_at it.bits.now (k - it.by) };

    fn bit(&self, at: usize) -> bool {
        if (at as u128) < self.by {
            return false;
        }
        let place = at - self.by as usize;
        if place < self.bits.len() {
            self.bits[place]
        } else {
            false
        }
    }
}

/// Bits moved down.
#[derive(Clone, Copy)]
struct MovedDown<'a> {
    bits: &'a [bool],
    by: u128,
    fill: bool,
}

impl<'a> ByPlace for MovedDown<'a> {
    ghost value = { λ it k. if nat_lt (k + it.by) (length it.bits.now) then bit_at it.bits.now (k + it.by) else it.fill };

    fn bit(&self, at: usize) -> bool {
        if self.by >= self.bits.len() as u128 {
            return self.fill;
        }
        let place = at + self.by as usize;
        if place < self.bits.len() {
            self.bits[place]
        } else {
            self.fill
        }
    }
}

/// The bit that a part, which stands from a place on, has at another place, or what was there.
fn written_at(part: &[bool], low: i64, at: usize, old: bool) -> bool
    requires { at < 65536 }
    ensures { result ≡ written part.now (pos at -ℤ low) old }
{
    match (at as i64).checked_sub(low) {
        Some(place) => {
            if place < 0 {
                return old;
            }
            let place = place as usize;
            if place < part.len() { part[place] } else { old }
        }
        None => old,
    }
}

/// Writes a part over the places from one place on; nothing outside.
pub fn write_over(part: &[bool], low: i64, out: &mut [bool])
    requires { length out.old ≤ 65536 }
    ensures { out.new ≡ placed low part.now out.old }
{
    for at in 0..out.len() {
        out[at] = written_at(part, low, at, out[at]);
    }
}

/// Writes bits brought to the length of `out`.
pub fn extend_all(bits: &[bool], by_sign: bool, out: &mut [bool])
    requires { length out.old ≤ 65536 }
    ensures { out.new ≡ extended by_sign (length out.old) bits.now }
{
    fill(&Extended { bits, by_sign }, out)
}

/// Writes the bits from a place on.
pub fn select_all(bits: &[bool], low: i64, out: &mut [bool])
    requires { length out.old ≤ 65536 }
    ensures { out.new ≡ selected low (length out.old) bits.now }
{
    fill(&Selected { bits, low }, out)
}

/// Writes the bits moved up, filled with 0.
fn move_up(bits: &[bool], by: u128, out: &mut [bool])
    requires small { length out.old ≤ 65536 }
    requires same { length bits.now ≡ length out.old }
    ensures { out.new ≡ shifted_left by bits.now }
{
    fill(&MovedUp { bits, by }, out)
}

/// Writes the bits moved down, filled with one bit.
fn move_down(bits: &[bool], by: u128, fill_bit: bool, out: &mut [bool])
    requires small { length out.old ≤ 65536 }
    requires same { length bits.now ≡ length out.old }
    ensures { out.new ≡ shifted_right fill_bit by bits.now }
{
    let moved = MovedDown {
        bits,
        by,
        fill: fill_bit,
    };
    fill(&moved, out)
}

/// Writes the bits moved.
pub fn shift_all(kind: Shift, bits: &[bool], by: u128, out: &mut [bool])
    requires some { 0 < length bits.now }
    requires small { length out.old ≤ 65536 }
    requires same { length bits.now ≡ length out.old }
    ensures { out.new ≡ shifted kind by bits.now }
{
    match kind {
        Shift::Left => move_up(bits, by, out),
        Shift::Right => move_down(bits, by, false, out),
        Shift::RightSigned => {
            let top = bits[bits.len() - 1];
            move_down(bits, by, top, out)
        }
    }
}
