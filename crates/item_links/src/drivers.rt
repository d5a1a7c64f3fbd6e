ghost use Rattle.std.specs.Prelude.{◌≡◌, ◌+◌, ◌<◌, ◌≤◌, ◌^◌, ◌||◌, ◌&&◌, ◌==◌, ℕ, List, Bool, None, false, true, IfOk, OnOk, MatchOption, length, map, sum, replicate};
ghost use Rattle.design_core.specs.declared.place.BitRef.{BitRef};
ghost use Rattle.design_core.specs.declared.items.Item.{Item as DesignItem};
ghost use Rattle.design_core.specs.Cells.{In};
ghost use Rattle.design_core.specs.Parts.{item_cell};
ghost use Rattle.design_core.specs.Wellformed.{signal_lengths};
ghost use Rattle.design_laws.specs.Kinds.{IsOverBits};
ghost use Rattle.item_bits.specs.declared.pieces.Piece.{Piece as SpecPiece};
ghost use Rattle.item_bits.specs.Pieces.{has, some_has};
ghost use Rattle.item_links.specs.Noted.{AreNoted, IsMarked, all_drives, first_drives, flag};
ghost use Rattle.item_links.specs.Numbered.{AreBits, AreStarts, HasRoom};

use crate::numbers::span_of;
use bits_core::NoMemory;
use design_core::{Item, Signal};
use item_bits::{Piece, add_item_drives};
use item_order::Span;
use std::alloc::Global;

/// No bit has a driver.
fn no_drivers(alloc: Global, bits: usize) -> Result<Vec<Option<u32>>, NoMemory>
    ensures { IfOk result (λ r. r.items ≡ replicate bits None) }
{
    Ok(Vec::from_elem(alloc, None, bits)?)
}

/// No signal has a bit that two items drive.
fn no_flags(alloc: Global, signals: usize) -> Result<Vec<bool>, NoMemory>
    ensures { IfOk result (λ r. r.items ≡ replicate signals false) }
{
    Ok(Vec::from_elem(alloc, false, signals)?)
}

/// An item is noted as the driver of the bits of a span, up to the first bit that is another's; whether there is such a bit.
fn mark(drivers: &mut [Option<u32>], span: Span, item: u32) -> bool
    requires { span.to ≤ length drivers.old }
    ensures { IsMarked drivers.old drivers.new span item result }
{
    for bit in span.from..span.to {
        match drivers[bit as usize] {
            None => drivers[bit as usize] = Some(item),
            Some(other) => {
                if other != item {
                    return true;
                }
            }
        }
    }
    false
}

/// An item is noted as the driver of the bits of a piece, or the piece's signal as one with a bit that two items drive.
fn note_piece(
    starts: &[u32],
    drivers: &mut [Option<u32>],
    twice: &mut [bool],
    piece: Piece,
    item: u32,
)
    requires few { length drivers.old < 2 ^ 31 }
    requires many { length starts.now ≡ length twice.old + 1 }
    requires room { HasRoom starts.now (length drivers.old) piece }
    ensures { (lengths : List ℕ) (d : ℕ → BitRef → Bool) → AreStarts lengths starts.now → AreBits lengths (has piece) → AreNoted lengths d drivers.old twice.old
        → AreNoted lengths (λ i b. d i b || ((i == item) && has piece b)) drivers.new twice.new }
{
    if piece.from < piece.to {
        let span = span_of(starts, piece);
        if mark(drivers, span, item) {
            twice[piece.signal as usize] = true;
        }
    }
}

/// An item is noted as the driver of the bits of these pieces.
fn note_pieces(
    starts: &[u32],
    drivers: &mut [Option<u32>],
    twice: &mut [bool],
    pieces: &[Piece],
    item: u32,
)
    requires few { length drivers.old < 2 ^ 31 }
    requires many { length starts.now ≡ length twice.old + 1 }
    requires room { (p : SpecPiece) → In p pieces.now → HasRoom starts.now (length drivers.old) p }
    ensures { (lengths : List ℕ) (d : ℕ → BitRef → Bool) → AreStarts lengths starts.now → AreBits lengths (some_has pieces.now) → AreNoted lengths d drivers.old twice.old
        → AreNoted lengths (λ i b. d i b || ((i == item) && some_has pieces.now b)) drivers.new twice.new }
{
    for at in 0..pieces.len() {
        note_piece(starts, drivers, twice, pieces[at], item);
    }
}

/// Each item is noted as the driver of the bits that it drives. Linear in the items and the bits that they drive.
fn note_items(
    alloc: Global,
    signals: &[Signal],
    items: &[Item],
    starts: &[u32],
    drivers: &mut [Option<u32>],
    twice: &mut [bool],
) -> Result<(), NoMemory>
    requires few_items { length items.now < 2 ^ 32 }
    requires few_bits { sum (signal_lengths signals.now) < 2 ^ 31 }
    requires bits { (i : DesignItem) → In i items.now → IsOverBits (signal_lengths signals.now) (item_cell signals.now i) }
    requires starts { AreStarts (signal_lengths signals.now) starts.now }
    requires drivers { drivers.old ≡ replicate (sum (signal_lengths signals.now)) None }
    requires twice { twice.old ≡ replicate (length signals.now) false }
    ensures { OnOk result (AreNoted (signal_lengths signals.now) (first_drives (map (item_cell signals.now) items.now) (length items.now)) drivers.new twice.new) }
{
    for at in 0..items.len() {
        let mut pieces = Vec::new(alloc);
        add_item_drives(alloc, signals, &items[at], &mut pieces)?;
        note_pieces(starts, drivers, twice, pieces.as_slice(), at as u32);
    }
    Ok(())
}

/// Which item drives each bit, and which signals have a bit that two items drive.
#[derive(Drop)]
pub struct Noted {
    pub drivers: Vec<Option<u32>>,
    pub twice: Vec<bool>,
}

/// Which item drives each bit, and which signals have a bit that two items drive. Linear in the items and the bits that they drive.
pub fn note_all(
    alloc: Global,
    signals: &[Signal],
    items: &[Item],
    starts: &[u32],
) -> Result<Noted, NoMemory>
    requires few_items { length items.now < 2 ^ 32 }
    requires few_bits { sum (signal_lengths signals.now) < 2 ^ 31 }
    requires bits { (i : DesignItem) → In i items.now → IsOverBits (signal_lengths signals.now) (item_cell signals.now i) }
    requires starts { AreStarts (signal_lengths signals.now) starts.now }
    ensures noted { IfOk result (λ r. AreNoted (signal_lengths signals.now) (all_drives (map (item_cell signals.now) items.now)) r.drivers.items r.twice.items) }
    ensures many { IfOk result (λ r. length r.drivers.items ≡ sum (signal_lengths signals.now)) }
{
    let mut drivers = no_drivers(alloc, starts[signals.len()] as usize)?;
    let mut twice = no_flags(alloc, signals.len())?;
    note_items(
        alloc,
        signals,
        items,
        starts,
        drivers.as_mut_slice(),
        twice.as_mut_slice(),
    )?;
    Ok(Noted { drivers, twice })
}

/// The first signal that was found to have a bit that two items drive.
pub fn first_flag(twice: &[bool]) -> Option<usize>
    ensures { MatchOption result ((s : ℕ) → flag twice.now s ≡ false) (λ s. (s < length twice.now) × (flag twice.now s ≡ true) × ((t : ℕ) → t < s → flag twice.now t ≡ false)) }
{
    for at in 0..twice.len() {
        if twice[at] {
            return Some(at);
        }
    }
    None
}
