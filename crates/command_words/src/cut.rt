// Texts cut at a byte.
ghost use Rattle.std.specs.Prelude.{◌≡◌, map, option_map, IfOk};
ghost use Rattle.command_words.specs.Parts as spec;

use bits_core::NoMemory;
use std::alloc::Global;

/// The parts of a text between the occurrences of a byte. Linear in the text.
pub fn parts<'w>(alloc: Global, text: &'w [u8], at: u8) -> Result<Vec<&'w [u8]>, NoMemory>
    ensures { IfOk result (λ v. map (λ p. p.now) v.items ≡ spec.parts at text.entry.now) }
{
    let mut parts = Vec::new(alloc);
    let mut start = 0usize;
    for (i, byte) in text.iter().enumerate() {
        if *byte != at {
            continue;
        }
        parts.push(&text[start..i])?;
        start = i + 1;
    }
    parts.push(&text[start..])?;
    Ok(parts)
}

/// What stands before the first occurrence of a byte, and what behind it.
pub fn cut_first(text: &[u8], at: u8) -> Option<(&[u8], &[u8])>
    ensures { option_map (λ p. (p.0.now, p.1.now)) result ≡ spec.cut_first at text.now }
{
    for (i, byte) in text.iter().enumerate() {
        if *byte == at {
            return Some((&text[..i], &text[i + 1..]));
        }
    }
    None
}

/// What stands before the last occurrence of a byte, and what behind it.
pub fn cut_last(text: &[u8], at: u8) -> Option<(&[u8], &[u8])>
    ensures { option_map (λ p. (p.0.now, p.1.now)) result ≡ spec.cut_last at text.now }
{
    let mut left = text;
    'bytes: loop {
        let [front @ .., byte] = left else {
            return None;
        };
        if *byte == at {
            return Some((front, &text[front.len() + 1..]));
        }
        left = front;
    }
}
