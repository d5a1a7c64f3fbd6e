ghost use Rattle.std.specs.Prelude.{◌≡◌, ◌≤◌, take};
ghost use Rattle.std.specs.List.{prefix_len};
ghost use Rattle.vl_lex.specs.Bytes as bytes;
ghost use Rattle.vl_lex.specs.Numbers as parts;
ghost use Rattle.vl_size.specs.Texts as spec;

use crate::tree::Size;
use vl_lex::bytes::first;
use vl_lex::numbers::{has_base, is_signed, size_len, value_of};

/// A length, where each one above 65,536 counts as one more than that.
pub fn capped(length: u64) -> u32
    ensures value { result ≡ spec.capped length }
    ensures most { result ≤ 65537 }
{
    if length > 65_536 {
        65_537
    } else {
        length as u32
    }
}

/// The first bytes, all where there are no more.
fn front(text: &[u8], len: usize) -> &[u8]
    ensures { result.now ≡ take len text.now }
{
    if len <= text.len() {
        &text[..len]
    } else {
        text
    }
}

fn is_based(byte: u8) -> bool
    ensures { result ≡ bytes.is_based byte }
{
    byte.is_ascii_alphanumeric() || byte == b'_' || byte == b'?'
}

fn based_len(text: &[u8]) -> usize
    ensures { result ≡ prefix_len bytes.is_based text.now }
{
    text.iter().take_while(|byte| is_based(**byte)).count()
}

/// The number that a size says, capped.
fn size_in(size: &[u8]) -> u32
    ensures { result ≡ spec.capped (parts.size_value size.now) }
{
    match value_of(10, front(size, based_len(size))) {
        Some(value) => { if value > 65_536 { 65_537 } else { value as u32 } }
        None => 65_537,
    }
}

fn length_in(text: &[u8]) -> u32
    ensures { result ≡ spec.length_in text.now }
{
    let size = front(text, size_len(text));
    if has_base(text) && first(size) != 0 {
        size_in(size)
    } else {
        32
    }
}

/// The length and the sign that the text of a number gives (IEEE 1364-2005, 3.5.1). Linear in the text.
pub fn number_size(text: &[u8]) -> Size
    ensures { result ≡ spec.number_size text.now }
{
    Size {
        length: length_in(text),
        signed: is_signed(text),
    }
}
