ghost use Rattle.std.specs.Prelude.{◌≡◌, ◌+◌, ◌-◌, ◌<◌, ◌≤◌, ◌^◌, ◌||◌, ◌&&◌, ℕ, List, [], Bool, not, IfOk, OnOk, length, map, nat_le, nat_lt, sum, slice_index_or};
ghost use Rattle.design_core.specs.declared.place.BitRef.{BitRef};
ghost use Rattle.design_core.specs.declared.items.Item.{Item as DesignItem};
ghost use Rattle.design_core.specs.Cells.{In};
ghost use Rattle.design_core.specs.Parts.{item_cell};
ghost use Rattle.design_core.specs.Wellformed.{signal_lengths};
ghost use Rattle.design_laws.specs.Kinds.{IsOverBits};
ghost use Rattle.item_bits.specs.declared.pieces.Piece.{Piece as SpecPiece};
ghost use Rattle.item_bits.specs.Pieces.{has, some_has};
ghost use Rattle.item_order.specs.Spans.{AreWithin, holds, some_holds};
ghost use Rattle.item_links.specs.Noted.{all_drives, cell_in};
ghost use Rattle.item_links.specs.Numbered.{AreBelow, AreBits, AreSpansOf, AreStarts, HasRoom};
ghost use Rattle.item_links.specs.Owned.{AreStamped, IsOwned, is_comb as spec_comb, owns};

use crate::numbers::span_of;
use bits_core::{Items, NoMemory};
use design_core::{Item, Signal};
use item_bits::{Piece, add_item_drives, add_item_reads};
use item_order::{Span, SpanList};
use std::alloc::Global;

/// A span that has a number is put behind the others.
fn put_span(all: &mut Vec<Span>, from: u32, to: u32) -> Result<(), NoMemory>
    ensures has { OnOk result ((n : ℕ) → some_holds all.new.items n ≡ (some_holds all.old.items n || (nat_le from n && nat_lt n to))) }
    ensures below { OnOk result ((bits : ℕ) → to ≤ bits → AreBelow bits all.old.items → AreBelow bits all.new.items) }
{
    if from < to {
        all.push(Span { from, to })?;
    }
    Ok(())
}

/// Whether the item drives a bit.
pub fn is_own(drivers: &[Option<u32>], item: u32, bit: u32) -> bool
    requires { bit < length drivers.now }
    ensures { result ≡ owns drivers.now item bit }
{
    match drivers[bit as usize] {
        None => false,
        Some(other) => other == item,
    }
}

/// The bits of a span that the item does not drive are put behind the others, in spans.
fn put_others(
    drivers: &[Option<u32>],
    item: u32,
    span: Span,
    all: &mut Vec<Span>,
) -> Result<(), NoMemory>
    requires some { span.from ≤ span.to }
    requires fits { span.to ≤ length drivers.now }
    ensures has { OnOk result ((n : ℕ) → some_holds all.new.items n ≡ (some_holds all.old.items n || (holds span n && not (owns drivers.now item n)))) }
    ensures below { OnOk result ((bits : ℕ) → span.to ≤ bits → AreBelow bits all.old.items → AreBelow bits all.new.items) }
{
    let mut from = span.from;
    for at in span.from..span.to {
        if is_own(drivers, item, at) {
            put_span(all, from, at)?;
            from = at + 1;
        }
    }
    put_span(all, from, span.to)
}

/// The signals of some pieces get an item's stamp.
pub fn stamp(stamps: &mut [u32], pieces: &[Piece], item: u32)
    ensures { AreStamped stamps.new (some_has pieces.now) item }
{
    for at in 0..pieces.len() {
        let signal = pieces[at].signal as usize;
        if signal < stamps.len() {
            stamps[signal] = item;
        }
    }
}

/// The bits of a piece that the item does not drive itself are put behind the others. Only where its signal has the item's stamp is there a bit that it does.
fn put_piece(
    starts: &[u32],
    drivers: &[Option<u32>],
    stamps: &[u32],
    piece: Piece,
    item: u32,
    all: &mut Vec<Span>,
) -> Result<(), NoMemory>
    requires few { length drivers.now < 2 ^ 31 }
    requires many { length starts.now ≡ length stamps.now + 1 }
    requires room { HasRoom starts.now (length drivers.now) piece }
    ensures spans { OnOk result ((lengths : List ℕ) (f own : BitRef → Bool) → AreStarts lengths starts.now → AreBits lengths (has piece) → IsOwned lengths drivers.now item own
        → AreStamped stamps.now own item → AreSpansOf lengths f all.old.items → AreSpansOf lengths (λ b. f b || (has piece b && not (own b))) all.new.items) }
    ensures below { OnOk result (AreBelow (length drivers.now) all.old.items → AreBelow (length drivers.now) all.new.items) }
{
    if piece.from < piece.to {
        let span = span_of(starts, piece);
        if stamps[piece.signal as usize] == item {
            return put_others(drivers, item, span, all);
        }
        all.push(span)?;
    }
    Ok(())
}

/// The bits of some pieces that the item does not drive itself, in spans.
fn others_of(
    alloc: Global,
    starts: &[u32],
    drivers: &[Option<u32>],
    stamps: &[u32],
    pieces: &[Piece],
    item: u32,
) -> Result<Vec<Span>, NoMemory>
    requires few { length drivers.now < 2 ^ 31 }
    requires many { length starts.now ≡ length stamps.now + 1 }
    requires room { (p : SpecPiece) → In p pieces.now → HasRoom starts.now (length drivers.now) p }
    ensures spans { IfOk result (λ r. (lengths : List ℕ) (own : BitRef → Bool) → AreStarts lengths starts.now → AreBits lengths (some_has pieces.now) → IsOwned lengths drivers.now item own
        → AreStamped stamps.now own item → AreSpansOf lengths (λ b. some_has pieces.now b && not (own b)) r.items) }
    ensures below { IfOk result (λ r. AreBelow (length drivers.now) r.items) }
{
    let mut all = Vec::new(alloc);
    for at in 0..pieces.len() {
        put_piece(starts, drivers, stamps, pieces[at], item, &mut all)?;
    }
    Ok(all)
}

/// The bits of some pieces, in spans.
fn spans_of(alloc: Global, starts: &[u32], pieces: &[Piece]) -> Result<Vec<Span>, NoMemory>
    requires room { (p : SpecPiece) → In p pieces.now → HasRoom starts.now (2 ^ 31 - 1) p }
    ensures spans { IfOk result (λ r. (lengths : List ℕ) → AreStarts lengths starts.now → AreBits lengths (some_has pieces.now) → AreSpansOf lengths (some_has pieces.now) r.items) }
    ensures below { IfOk result (λ r. (bits : ℕ) → ((p : SpecPiece) → In p pieces.now → HasRoom starts.now bits p) → AreBelow bits r.items) }
{
    let mut all = Vec::new(alloc);
    for at in 0..pieces.len() {
        let piece = pieces[at];
        if piece.from < piece.to {
            all.push(span_of(starts, piece))?;
        }
    }
    Ok(all)
}

/// Whether an item is a combinational process.
fn is_comb(item: &Item) -> bool
    ensures { result ≡ spec_comb item.now }
{
    match item {
        Item::Comb { .. } => true,
        Item::Assign { .. } => false,
        Item::Clocked { .. } => false,
    }
}

/// What an item reads within the cycle: of a combinational process not the bits that it drives itself.
fn item_reads(
    alloc: Global,
    signals: &[Signal],
    item: &Item,
    at: u32,
    starts: &[u32],
    drivers: &[Option<u32>],
    stamps: &mut [u32],
) -> Result<SpanList, NoMemory>
    requires few { sum (signal_lengths signals.now) < 2 ^ 31 }
    requires many_drivers { length drivers.now ≡ sum (signal_lengths signals.now) }
    requires many_stamps { length stamps.old ≡ length signals.now }
    requires bits { IsOverBits (signal_lengths signals.now) (item_cell signals.now item.now) }
    requires starts { AreStarts (signal_lengths signals.now) starts.now }
    requires own { IsOwned (signal_lengths signals.now) drivers.now at (item_cell signals.now item.now).drives }
    ensures spans { IfOk result (λ r. AreSpansOf (signal_lengths signals.now) (item_cell signals.now item.now).reads r) }
    ensures below { IfOk result (λ r. AreBelow (sum (signal_lengths signals.now)) r) }
{
    let mut pieces = Vec::new(alloc);
    add_item_reads(alloc, item, &mut pieces)?;
    if !is_comb(item) {
        let spans = spans_of(alloc, starts, pieces.as_slice())?;
        return Ok(Items::of(spans));
    }
    let mut driven = Vec::new(alloc);
    add_item_drives(alloc, signals, item, &mut driven)?;
    stamp(stamps, driven.as_slice(), at);
    let spans = others_of(alloc, starts, drivers, stamps, pieces.as_slice(), at)?;
    Ok(Items::of(spans))
}

/// What each item reads within the cycle. Linear in the items' trees, and in the bits that a combinational process reads of signals that it drives bits of itself.
pub fn all_reads(
    alloc: Global,
    signals: &[Signal],
    items: &[Item],
    starts: &[u32],
    drivers: &[Option<u32>],
) -> Result<Vec<SpanList>, NoMemory>
    requires few_items { length items.now < 2 ^ 32 }
    requires few_bits { sum (signal_lengths signals.now) < 2 ^ 31 }
    requires many { length drivers.now ≡ sum (signal_lengths signals.now) }
    requires bits { (i : DesignItem) → In i items.now → IsOverBits (signal_lengths signals.now) (item_cell signals.now i) }
    requires starts { AreStarts (signal_lengths signals.now) starts.now }
    requires own { (i : ℕ) → i < length items.now → IsOwned (signal_lengths signals.now) drivers.now i (all_drives (map (item_cell signals.now) items.now) i) }
    ensures many { IfOk result (λ r. length r.items ≡ length items.now) }
    ensures spans { IfOk result (λ r. (i : ℕ) → AreSpansOf (signal_lengths signals.now) (cell_in (map (item_cell signals.now) items.now) i).reads (slice_index_or r.items i [])) }
    ensures below { IfOk result (λ r. AreWithin (sum (signal_lengths signals.now)) r.items) }
{
    let mut all = Vec::new(alloc);
    let mut stamps = Vec::from_elem(alloc, 0, signals.len())?;
    for at in 0..items.len() {
        all.push(item_reads(
            alloc,
            signals,
            &items[at],
            at as u32,
            starts,
            drivers,
            stamps.as_mut_slice(),
        )?)?;
    }
    Ok(all)
}
