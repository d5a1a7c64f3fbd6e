ghost use Rattle.std.specs.Prelude.{◌≡◌, ◌+◌, ◌<◌, ◌^◌, IfOk, sum, length, slice_index_or};
ghost use Rattle.design_core.specs.Wellformed.{signal_lengths};
ghost use Rattle.item_links.specs.Numbered.{AreStarts, HasRoom};

use bits_core::NoMemory;
use design_core::Signal;
use item_bits::Piece;
use item_order::Span;
use std::alloc::Global;

/// The number of each signal's lowest bit, and last the number of all bits. Linear in the signals.
pub fn starts(alloc: Global, signals: &[Signal]) -> Result<Vec<u32>, NoMemory>
    requires { sum (signal_lengths signals.now) < 2 ^ 31 }
    ensures { IfOk result (λ r. AreStarts (signal_lengths signals.now) r.items) }
{
    let mut all = Vec::new(alloc);
    let mut next = 0;
    for at in 0..signals.len() {
        all.push(next)?;
        next += signals[at].length;
    }
    all.push(next)?;
    Ok(all)
}

/// The numbers of the bits of a piece, which has some.
pub fn span_of(starts: &[u32], piece: Piece) -> Span
    requires some { piece.from < piece.to }
    requires room { HasRoom starts.now (2 ^ 31) piece }
    ensures from { result.from ≡ slice_index_or starts.now piece.signal 0 + piece.from }
    ensures to { result.to ≡ slice_index_or starts.now piece.signal 0 + piece.to }
{
    let start = starts[piece.signal as usize];
    Span {
        from: start + piece.from,
        to: start + piece.to,
    }
}
