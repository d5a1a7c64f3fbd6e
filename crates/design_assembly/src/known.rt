// What is known of the bits, and the power-up values and keepers that follow from it.
ghost use Rattle.std.specs.Prelude.{◌≡◌, ◌++◌, List, true, map, IfOk, OnOk};
ghost use Rattle.std.specs.List.{filter};
ghost use Rattle.design_core.specs.Numbers.{is_bit};
ghost use Rattle.design_core.specs.Wellformed.{signal_lengths};
ghost use Rattle.design_core.specs.declared.items.Item.{Item};
ghost use Rattle.design_core.specs.declared.items.PowerUp.{PowerUp};
ghost use Rattle.design_core.specs.declared.signals.Signal.{Signal};
ghost use Rattle.design_assembly.specs.Known.{AllFit, IsKnown};
ghost use Rattle.design_assembly.specs.Keepers.{keeper_of};
ghost use Rattle.design_assembly.specs.Power.{is_kept as spec_kept, is_powered as spec_powered, power_of, value_of};

use crate::drives::{driven, registers};
use crate::keepers::keeper;
use crate::marks::Marks;
use crate::values::{given, ones};
use bits_core::{Items, NoMemory};
use design_core::{BitRef, Item, ItemList, PowerUp, PowerUpList, Signal};
use std::alloc::Global;

/// What is known of bits: which are registers, which some item drives, which are given a value at power-up, and which are 1 there.
#[derive(Drop)]
pub struct Known {
    registers: Marks,
    driven: Marks,
    given: Marks,
    ones: Marks,
}

/// What is known of the bits of these signals.
pub fn learn(
    alloc: Global,
    signals: &[Signal],
    items: &[Item],
    inits: &[PowerUp],
) -> Result<Known, NoMemory>
    ensures { IfOk result (IsKnown signals.now items.now inits.now) }
{
    let registers = registers(alloc, signals, items)?;
    let driven = driven(alloc, signals, items)?;
    let given = given(alloc, signals, inits)?;
    let ones = ones(alloc, signals, inits)?;
    Ok(Known {
        registers,
        driven,
        given,
        ones,
    })
}

/// Whether a bit is given a value that no item drives.
fn is_kept(known: &Known, bit: BitRef) -> bool
    ensures { (signals : List Signal) (items : List Item) (inits : List PowerUp) → IsKnown signals items inits known.now → is_bit (signal_lengths signals) bit ≡ true → result ≡ spec_kept signals items inits bit }
{
    known.given.has(bit) && !known.driven.has(bit)
}

/// Whether a bit is a register, or is kept.
fn is_powered(known: &Known, bit: BitRef) -> bool
    ensures { (signals : List Signal) (items : List Item) (inits : List PowerUp) → IsKnown signals items inits known.now → is_bit (signal_lengths signals) bit ≡ true → result ≡ spec_powered signals items inits bit }
{
    known.registers.has(bit) || is_kept(known, bit)
}

/// The value of a bit at power-up.
fn value(known: &Known, bit: BitRef) -> PowerUp
    ensures { (signals : List Signal) (items : List Item) (inits : List PowerUp) → IsKnown signals items inits known.now → is_bit (signal_lengths signals) bit ≡ true → result ≡ power_of inits bit }
{
    PowerUp {
        bit,
        value: known.ones.has(bit),
    }
}

/// The power-up values of these bits, in their order.
pub fn power_values(alloc: Global, known: &Known, bits: &[BitRef]) -> Result<PowerUpList, NoMemory>
    ensures { IfOk result (λ r. (signals : List Signal) (items : List Item) (inits : List PowerUp) → IsKnown signals items inits known.now → AllFit signals bits.now
        → r ≡ map (power_of inits) (filter (spec_powered signals items inits) bits.now)) }
{
    let mut all = Items::new(alloc);
    for at in 0..bits.len() {
        let bit = bits[at];
        if is_powered(known, bit) {
            all.push(value(known, bit))?;
        }
    }
    Ok(all)
}

/// The items that keep bits, of these bits in their order, are put at the end.
pub fn add_keepers(
    alloc: Global,
    signals: &[Signal],
    known: &Known,
    bits: &[BitRef],
    all: &mut ItemList,
) -> Result<(), NoMemory>
    ensures { OnOk result ((items : List Item) (inits : List PowerUp) → IsKnown signals.now items inits known.now → AllFit signals.now bits.now
        → all.new ≡ all.old ++ map (keeper_of signals.now) (filter (spec_kept signals.now items inits) bits.now)) }
{
    for at in 0..bits.len() {
        let bit = bits[at];
        if is_kept(known, bit) {
            all.push(keeper(alloc, signals, bit)?)?;
        }
    }
    Ok(())
}
