// Texts cut at a byte.
ghost use Rattle.std.specs.Prelude.{◌≡◌, map, IfOk};
ghost use Rattle.plain_form.specs.Pieces as spec;

use bits_core::NoMemory;
use std::alloc::Global;

/// The parts of a text between the occurrences of a byte. Linear in the text.
pub fn pieces<'f>(alloc: Global, text: &'f [u8], at: u8) -> Result<Vec<&'f [u8]>, NoMemory>
    ensures { IfOk result (λ v. map (λ p. p.now) v.items ≡ spec.pieces at text.entry.now) }
{
    let mut pieces = Vec::new(alloc);
    let mut start = 0usize;
    for (i, byte) in text.iter().enumerate() {
        if *byte != at {
            continue;
        }
        pieces.push(&text[start..i])?;
        start = i + 1;
    }
    pieces.push(&text[start..])?;
    Ok(pieces)
}
