ghost use Rattle.std.specs.Prelude.{◌≡◌, ◌<◌, ◌^◌, ◌||◌, ℕ, OnOk};
ghost use Rattle.design_core.specs.declared.place.BitRef.{BitRef};
ghost use Rattle.design_core.specs.declared.tree.DStmt.{DStmt as Stmt};
ghost use Rattle.design_core.specs.Core.{same_bit};
ghost use Rattle.design_core.specs.Items.{cell_of};
ghost use Rattle.design_core.specs.Parts.{clocked_of, item_cell, item_of, length_at};
ghost use Rattle.item_bits.specs.Items.{HasLowReset, asked_within};
ghost use Rattle.item_bits.specs.Pieces.{Adds, has};

use crate::drives::{add_drives, add_left_drives};
use crate::pieces::Piece;
use crate::reads::{add_left_reads, add_reads, add_stmt_reads};
use bits_core::NoMemory;
use design_core::{BitRef, DReset, DStmt, Item, Signal};
use std::alloc::Global;

/// The bits that a clocked item drives are added.
fn add_clocked_drives(
    alloc: Global,
    signals: &[Signal],
    reset: &Option<DReset>,
    body: &DStmt,
    all: &mut Vec<Piece>,
) -> Result<(), NoMemory>
    ensures { OnOk result (Adds all.old.items all.new.items (cell_of (clocked_of (length_at signals.now) reset.now body.now)).drives) }
{
    if let Some(r) = reset {
        add_drives(alloc, signals, &r.branch, all)?;
    }
    add_drives(alloc, signals, body, all)
}

/// The bits that an item drives are added: those that it may write.
pub fn add_item_drives(
    alloc: Global,
    signals: &[Signal],
    item: &Item,
    all: &mut Vec<Piece>,
) -> Result<(), NoMemory>
    ensures { OnOk result (Adds all.old.items all.new.items (item_cell signals.now item.now).drives) }
{
    match item {
        Item::Assign { left, .. } => add_left_drives(signals, left, all),
        Item::Comb { body, .. } => add_drives(alloc, signals, body, all),
        Item::Clocked { reset, body, .. } => add_clocked_drives(alloc, signals, reset, body, all),
    }
}

/// One bit as a piece.
fn piece_of(bit: BitRef) -> Piece
    ensures { bit.bit < 2 ^ 31 → (b : BitRef) → has result b ≡ same_bit b bit }
{
    Piece {
        signal: bit.signal,
        from: bit.bit,
        to: bit.bit.saturating_add(1),
    }
}

/// The reset bit of a clocked item is added.
fn add_reset(reset: &Option<DReset>, all: &mut Vec<Piece>) -> Result<(), NoMemory>
    ensures { OnOk result ((size : ℕ → ℕ) (body : Stmt) → HasLowReset (clocked_of size reset.now body) → Adds all.old.items all.new.items (asked_within (clocked_of size reset.now body))) }
{
    if let Some(r) = reset {
        all.push(piece_of(r.bit))?;
    }
    Ok(())
}

/// The bits that an item reads within the cycle are added, with those that it drives itself: the bits of its right sides, tests and indices, and of a clocked item the reset bit alone.
pub fn add_item_reads(alloc: Global, item: &Item, all: &mut Vec<Piece>) -> Result<(), NoMemory>
    ensures { OnOk result ((size : ℕ → ℕ) → HasLowReset (item_of size item.now) → Adds all.old.items all.new.items (asked_within (item_of size item.now))) }
{
    match item {
        Item::Assign { left, right, .. } => {
            add_reads(alloc, right, all)?;
            add_left_reads(alloc, left, all)
        }
        Item::Comb { body, .. } => add_stmt_reads(alloc, body, all),
        Item::Clocked { reset, .. } => add_reset(reset, all),
    }
}

/// The bits that a clocked item reads at the end of the cycle are added.
fn add_clocked_uses(
    alloc: Global,
    reset: &Option<DReset>,
    body: &DStmt,
    all: &mut Vec<Piece>,
) -> Result<(), NoMemory>
    ensures { OnOk result ((size : ℕ → ℕ) → HasLowReset (clocked_of size reset.now body.now) → Adds all.old.items all.new.items (cell_of (clocked_of size reset.now body.now)).uses) }
{
    add_reset(reset, all)?;
    add_stmt_reads(alloc, body, all)
}

/// The bits that an item reads at the end of the cycle are added: of a clocked item those of its body and the reset bit, of any other none.
pub fn add_item_uses(alloc: Global, item: &Item, all: &mut Vec<Piece>) -> Result<(), NoMemory>
    ensures { OnOk result ((size : ℕ → ℕ) → HasLowReset (item_of size item.now) → Adds all.old.items all.new.items (cell_of (item_of size item.now)).uses) }
{
    match item {
        Item::Assign { .. } => Ok(()),
        Item::Comb { .. } => Ok(()),
        Item::Clocked { reset, body, .. } => add_clocked_uses(alloc, reset, body, all),
    }
}
