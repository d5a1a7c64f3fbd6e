ghost use Rattle.std.specs.Prelude.{◌≡◌, ◌<◌, ◌+◌, ◌*◌, ◌^◌, IsTrue, nat_le, length, drop, take};
ghost use Rattle.std.specs.Option.{SomeIff};
ghost use Rattle.std.specs.List.{prefix_len, list_all};
ghost use Rattle.vl_lex.specs.Bytes as byte_kinds;
ghost use Rattle.vl_lex.specs.Numbers as spec;

use crate::bytes::{based_len, first, front, is_based, is_sign, rest_from};

/// The value of a digit of any base; what is no digit counts as 0.
fn digit_value(byte: u8) -> u8
    ensures value { result ≡ spec.digit_value byte }
    ensures small { result < 16 }
{
    if b'0' <= byte && byte <= b'9' {
        byte - b'0'
    } else if b'a' <= byte && byte <= b'f' {
        byte - 87
    } else if b'A' <= byte && byte <= b'F' {
        byte - 55
    } else {
        0
    }
}

/// A digit whose bits are free: `z` in either case, or `?`.
pub fn is_free(byte: u8) -> bool
    ensures { result ≡ spec.is_free byte }
{
    byte == b'z' || byte == b'Z' || byte == b'?'
}

fn is_unknown(byte: u8) -> bool
    ensures { result ≡ spec.is_unknown byte }
{
    byte == b'x' || byte == b'X'
}

fn is_hex(byte: u8) -> bool
    ensures { result ≡ spec.is_hex byte }
{
    (b'0' <= byte && byte <= b'9')
        || (b'a' <= byte && byte <= b'f')
        || (b'A' <= byte && byte <= b'F')
}

/// Whether a byte may stand among the digits of a base.
fn fits_base(base: u8, byte: u8) -> bool
    ensures { result ≡ spec.fits_base base byte }
{
    byte == b'_'
        || is_unknown(byte)
        || (is_free(byte) && base != 10)
        || (is_hex(byte) && digit_value(byte) < base)
}

fn all_fit(base: u8, digits: &[u8]) -> bool
    ensures { result ≡ list_all (spec.fits_base base) digits.now }
{
    digits.iter().all(|byte| fits_base(base, *byte))
}

/// The base of a base letter.
pub fn base_of(letter: u8) -> u8
    ensures value { result ≡ spec.base_of letter }
    ensures there { 0 < result }
{
    match letter {
        b'b' | b'B' => 2,
        b'o' | b'O' => 8,
        b'd' | b'D' => 10,
        _ => 16,
    }
}

/// A value with one digit more, none from 2^128 on.
fn next_value(before: u128, base: u8, byte: u8) -> Option<u128>
    ensures { SomeIff result (before * base + spec.digit_value byte < 2 ^ 128) (before * base + spec.digit_value byte) }
{
    match before.checked_mul(base as u128) {
        Some(product) => product.checked_add(digit_value(byte) as u128),
        None => None,
    }
}

/// The value of some digits, none from 2^128 on. Linear in the digits.
#[tactic(auto, using(crate::proofs::Values::values))]
pub fn value_of(base: u8, digits: &[u8]) -> Option<u128>
    requires { 0 < base }
    ensures { SomeIff result (spec.value_from base 0 digits.now < 2 ^ 128) (spec.value_from base 0 digits.now) }
{
    let mut value = 0u128;
    for byte in digits {
        if *byte != b'_' {
            match next_value(value, base, *byte) {
                Some(more) => value = more,
                None => return None,
            }
        }
    }
    Some(value)
}

fn is_too_large(base: u8, digits: &[u8]) -> bool
    requires { 0 < base }
    ensures { result ≡ nat_le (2 ^ 128) (spec.value_from base 0 digits.now) }
{
    value_of(base, digits).is_none()
}

fn size_is_bad(size: &[u8]) -> bool
    ensures { result ≡ spec.size_is_bad size.now }
{
    if first(size) == 0 {
        return false;
    }
    match value_of(10, size_digits(size)) {
        Some(value) => value == 0 || value > 65_536,
        None => true,
    }
}

fn size_digits(size: &[u8]) -> &[u8]
    ensures { result.now ≡ take (prefix_len byte_kinds.is_based size.now) size.now }
{
    front(size, based_len(size))
}

fn digits_are_bad(base: u8, digits: &[u8]) -> bool
    requires { 0 < base }
    ensures { result ≡ spec.digits_are_bad base digits.now }
{
    first(digits) == 0
        || first(digits) == b'_'
        || !all_fit(base, digits)
        || is_too_large(base, digits)
}

/// What stands behind white space and joined newlines.
pub fn behind_blanks(bytes: &[u8]) -> &[u8]
    ensures { result.now ≡ spec.behind_blanks bytes.now }
{
    rest_from(bytes, between_len(bytes))
}

fn between_len(bytes: &[u8]) -> usize
    ensures { result ≡ prefix_len spec.is_between bytes.now }
{
    bytes.iter().take_while(|byte| !is_based(**byte)).count()
}

/// How many bytes stand before the quote of a number; all where there is none.
pub fn size_len(bytes: &[u8]) -> usize
    ensures { result ≡ prefix_len spec.before_tick bytes.now }
{
    bytes.iter().take_while(|byte| **byte != b'\'').count()
}

/// Whether a number has a base, behind a quote. Linear in the number, as all that follows.
pub fn has_base(text: &[u8]) -> bool
    ensures { result ≡ spec.has_base text.now }
{
    size_len(text) < text.len()
}

fn size_text(text: &[u8]) -> &[u8]
    ensures { result.now ≡ spec.size_text text.now }
{
    front(text, size_len(text))
}

fn mark_text(text: &[u8]) -> &[u8]
    requires { IsTrue (spec.has_base text.now) }
    ensures { result.now ≡ spec.mark_text text.now }
{
    rest_from(text, size_len(text) + 1)
}

/// Whether a number has a sign: one without a base has, one with a base where an `s` stands behind its quote.
pub fn is_signed(text: &[u8]) -> bool
    ensures { result ≡ spec.is_signed text.now }
{
    if has_base(text) {
        is_sign(first(mark_text(text)))
    } else {
        true
    }
}

fn behind_sign(bytes: &[u8]) -> &[u8]
    ensures { result.now ≡ spec.behind_sign bytes.now }
{
    if is_sign(first(bytes)) {
        rest_from(bytes, 1)
    } else {
        bytes
    }
}

fn base_text(text: &[u8]) -> &[u8]
    requires { IsTrue (spec.has_base text.now) }
    ensures { result.now ≡ spec.base_text text.now }
{
    behind_sign(mark_text(text))
}

/// The base of a number.
pub fn base_in(text: &[u8]) -> u8
    ensures value { result ≡ spec.base_in text.now }
    ensures there { 0 < result }
{
    if has_base(text) {
        base_of(first(base_text(text)))
    } else {
        10
    }
}

/// The digits of a number.
pub fn digits_in(text: &[u8]) -> &[u8]
    ensures { result.now ≡ spec.digits_in text.now }
{
    if has_base(text) {
        behind_blanks(rest_from(base_text(text), 1))
    } else {
        text
    }
}

/// The number that the digits say, the free and unknown ones as 0; none from 2^128 on.
pub fn value_in(text: &[u8]) -> Option<u128>
    ensures { SomeIff result (spec.value_in text.now < 2 ^ 128) (spec.value_in text.now) }
{
    value_of(base_in(text), digits_in(text))
}

/// How many bits a digit of a base stands for.
pub fn digit_size(base: u8) -> u8
    ensures { result ≡ spec.digit_size base }
{
    match base {
        2 => 1,
        8 => 3,
        _ => 4,
    }
}

/// Whether a number is faulty: by its size (none, or above 65,536), by its digits (none, a first `_`, or one that its base lacks), or by a value past 128 bits.
#[tactic(auto, unfolding(crate::specs::Numbers::is_bad_number))]
pub fn is_bad_number(text: &[u8]) -> bool
    ensures { result ≡ spec.is_bad_number text.now }
{
    if has_base(text) {
        size_is_bad(size_text(text)) || digits_are_bad(base_in(text), digits_in(text))
    } else {
        is_too_large(10, text)
    }
}
