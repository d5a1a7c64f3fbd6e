ghost use Rattle.std.specs.Prelude.{◌≡◌, ◌<◌, ◌≤◌, ◌^◌, ℕ, List, Err, IfOk, MatchOption, false, length, slice_index_or, sum, true};
ghost use Rattle.design_core.specs.declared.place.BitRef.{BitRef};
ghost use Rattle.design_core.specs.Cells.{Cell};
ghost use Rattle.design_core.specs.Numbers.{is_bit, number};
ghost use Rattle.design_core.specs.Wellformed.{signal_lengths};
ghost use Rattle.item_order.specs.Circles.{graph_of};
ghost use Rattle.item_order.specs.Progress.{bits_of, items_in};
ghost use Rattle.item_links.specs.Graphs.{IsGraphOf};
ghost use Rattle.item_links.specs.Noted.{IsFirstSignal};
ghost use Rattle.item_links.specs.Orders.{IsOnCircle, IsOrderOf, is_turned};
ghost use Rattle.item_links.specs.declared.lining.LineStop.TheVariants as stop;

use bits_core::NoMemory;
use design_core::Signal;
use item_order::{Links, arrange};
use std::alloc::Global;

/// Why items have no order: an item that drives a bit of a signal stands on a circle, or want of memory.
#[derive(Debug, Drop)]
pub enum LineStop {
    Circle(usize),
    NoMemory,
}

impl From<NoMemory> for LineStop {
    ghost use Rattle.std.specs.Prelude.{◌≡◌};
    ghost use Rattle.item_links.specs.declared.lining.LineStop.TheVariants.{NoMemory};

    ghost from_gives = { λ _ stop. stop ≡ NoMemory };

    fn from(_: NoMemory) -> LineStop {
        LineStop::NoMemory
    }
}

/// Whether it is told of an item that it stands on a circle.
fn is_circular(circular: &[bool], item: u32) -> bool
    ensures { result ≡ slice_index_or circular.now item false }
{
    match circular.get(item as usize) {
        Some(told) => *told,
        None => false,
    }
}

/// Whether an item on a circle drives one of the bits in a row.
fn has_circle(drivers: &[Option<u32>], circular: &[bool], from: usize, to: usize) -> bool
    requires { to ≤ length drivers.now }
    ensures some { result ≡ true → (n : ℕ) × ((from ≤ n) × (n < to) × (is_turned drivers.now circular.now n ≡ true)) }
    ensures none { result ≡ false → (n : ℕ) → from ≤ n → n < to → is_turned drivers.now circular.now n ≡ false }
{
    for bit in from..to {
        if let Some(item) = drivers[bit] {
            if is_circular(circular, item) {
                return true;
            }
        }
    }
    false
}

/// The first signal with a bit that an item on a circle drives.
fn first_circle(signals: &[Signal], drivers: &[Option<u32>], circular: &[bool]) -> Option<usize>
    requires few { sum (signal_lengths signals.now) < 2 ^ 31 }
    requires many { length drivers.now ≡ sum (signal_lengths signals.now) }
    ensures { MatchOption result ((b : BitRef) → is_bit (signal_lengths signals.now) b ≡ true → is_turned drivers.now circular.now (number (signal_lengths signals.now) b) ≡ false)
        (λ s. IsFirstSignal (λ b. (is_bit (signal_lengths signals.now) b ≡ true) × (is_turned drivers.now circular.now (number (signal_lengths signals.now) b) ≡ true)) s) }
{
    let mut start: usize = 0;
    for at in 0..signals.len() {
        let end = start + signals[at].length as usize;
        if has_circle(drivers, circular, start, end) {
            return Some(at);
        }
        start = end;
    }
    None
}

/// An order of the items in which each stands after those that drive what it reads, or the first signal with a bit that an item on a circle drives. Linear in the links.
pub fn line_up(alloc: Global, signals: &[Signal], links: &Links) -> Result<Vec<u32>, LineStop>
    requires { bits_of links.now ≡ sum (signal_lengths signals.now) }
    ensures circle { (s : ℕ) → result ≡ Err (stop.Circle s) → (cells : List (Cell BitRef)) → IsGraphOf (signal_lengths signals.now) cells (graph_of links.now) → length cells ≡ items_in links.now → IsFirstSignal (IsOnCircle cells) s }
    ensures order { IfOk result (λ r. (cells : List (Cell BitRef)) → IsGraphOf (signal_lengths signals.now) cells (graph_of links.now) → length cells ≡ items_in links.now → IsOrderOf cells r.items) }
{
    let arranged = arrange(alloc, links)?;
    if let Some(signal) = first_circle(
        signals,
        links.drivers.as_slice(),
        arranged.circular.as_slice(),
    ) {
        return Err(LineStop::Circle(signal));
    }
    Ok(arranged.order)
}
