// The items that keep bits with a power-up value.
ghost use Rattle.std.specs.Prelude.{◌≡◌, IfOk};
ghost use Rattle.design_assembly.specs.Keepers.{keeper_of, own_bit, scope_at};
ghost use Rattle.design_core.specs.Parts.{length_at};

use bits_core::NoMemory;
use design_core::{BitRef, DBase, DExpr, DLeft, DNode, DStmt, Item, Signal};
use sqlite_items::Boxed;
use std::alloc::Global;

/// The length of a signal.
fn length_of(signals: &[Signal], signal: u32) -> u32
    ensures { result ≡ length_at signals.now signal }
{
    match signals.get(signal as usize) {
        Some(s) => s.length,
        None => 0,
    }
}

/// The scope of a signal.
fn scope_of(signals: &[Signal], signal: u32) -> u32
    ensures { result ≡ scope_at signals.now signal }
{
    match signals.get(signal as usize) {
        Some(s) => s.scope,
        None => 0,
    }
}

/// A bit as an expression.
fn own(alloc: Global, signals: &[Signal], bit: BitRef) -> Result<DExpr, NoMemory>
    ensures { IfOk result (λ r. r ≡ own_bit signals.now bit) }
{
    let whole = DExpr {
        length: length_of(signals, bit.signal),
        signed: false,
        node: DNode::Signal(bit.signal),
    };
    let base = Boxed::new(alloc, whole)?;
    Ok(DExpr {
        length: 1,
        signed: false,
        node: DNode::Select {
            base,
            low: i64::from(bit.bit),
        },
    })
}

/// The item that keeps a bit: a clocked process in the scope of its signal that writes the bit's own value to it. Fails where memory is wanting.
pub fn keeper(alloc: Global, signals: &[Signal], bit: BitRef) -> Result<Item, NoMemory>
    ensures { IfOk result (λ r. r ≡ keeper_of signals.now bit) }
{
    let right = own(alloc, signals, bit)?;
    let left = DLeft::Part {
        base: DBase::Signal(bit.signal),
        low: i64::from(bit.bit),
        length: 1,
    };
    Ok(Item::Clocked {
        scope: scope_of(signals, bit.signal),
        weight: 1,
        reset: None,
        body: DStmt::Write {
            left,
            right,
            blocking: false,
        },
    })
}
