ghost use Rattle.std.specs.Prelude.{◌≡◌, ◌<◌, ◌^◌, ℕ, Err, IfOk, length, map, sum};
ghost use Rattle.design_core.specs.declared.items.Item.{Item as DesignItem};
ghost use Rattle.design_core.specs.Cells.{In};
ghost use Rattle.design_core.specs.Parts.{item_cell};
ghost use Rattle.design_core.specs.Wellformed.{signal_lengths};
ghost use Rattle.design_laws.specs.Kinds.{IsOverBits};
ghost use Rattle.item_order.specs.Circles.{graph_of};
ghost use Rattle.item_order.specs.Progress.{bits_of, items_in};
ghost use Rattle.item_links.specs.Graphs.{IsGraphOf};
ghost use Rattle.item_links.specs.Noted.{IsDouble, IsFirstSignal, all_drives};
ghost use Rattle.item_links.specs.declared.linking.LinkStop.TheVariants as stop;

use crate::drivers::{first_flag, note_all};
use crate::numbers::starts;
use crate::reading::all_reads;
use bits_core::NoMemory;
use design_core::{Item, Signal};
use item_order::Links;
use std::alloc::Global;

/// Why items have no links: a bit of a signal has two drivers, or want of memory.
#[derive(Debug, Drop)]
pub enum LinkStop {
    Twice(usize),
    NoMemory,
}

impl From<NoMemory> for LinkStop {
    ghost use Rattle.std.specs.Prelude.{◌≡◌};
    ghost use Rattle.item_links.specs.declared.linking.LinkStop.TheVariants.{NoMemory};

    ghost from_gives = { λ _ stop. stop ≡ NoMemory };

    fn from(_: NoMemory) -> LinkStop {
        LinkStop::NoMemory
    }
}

/// Which item drives each bit, and what each item reads within the cycle, by the numbers of bits; or the first signal with a bit that two items drive.
/// Linear in the items' trees and the bits that they drive.
pub fn link(alloc: Global, signals: &[Signal], items: &[Item]) -> Result<Links, LinkStop>
    requires few_items { length items.now < 2 ^ 32 }
    requires few_bits { sum (signal_lengths signals.now) < 2 ^ 31 }
    requires bits { (i : DesignItem) → In i items.now → IsOverBits (signal_lengths signals.now) (item_cell signals.now i) }
    ensures twice { (s : ℕ) → result ≡ Err (stop.Twice s) → IsFirstSignal (IsDouble (all_drives (map (item_cell signals.now) items.now))) s }
    ensures graph { IfOk result (λ r. IsGraphOf (signal_lengths signals.now) (map (item_cell signals.now) items.now) (graph_of r)) }
    ensures items { IfOk result (λ r. items_in r ≡ length items.now) }
    ensures bits { IfOk result (λ r. bits_of r ≡ sum (signal_lengths signals.now)) }
{
    let starts = starts(alloc, signals)?;
    let noted = note_all(alloc, signals, items, starts.as_slice())?;
    if let Some(signal) = first_flag(noted.twice.as_slice()) {
        return Err(LinkStop::Twice(signal));
    }
    let reads = all_reads(
        alloc,
        signals,
        items,
        starts.as_slice(),
        noted.drivers.as_slice(),
    )?;
    Ok(Links {
        reads,
        drivers: noted.drivers,
    })
}
