// A design made of its parts.
ghost use Rattle.std.specs.Prelude.{◌≡◌, ◌++◌, ◌+◌, ◌<◌, ◌≤◌, ◌^◌, true, length, map, ℕ, Err, Some, IfOk, OnOk};
ghost use Rattle.std.specs.List.{filter};
ghost use Rattle.design_core.specs.Wellformed.{are_formed, print_apart, scopes_apart, total_weight};
ghost use Rattle.design_assembly.specs.Keepers.{keepers};
ghost use Rattle.design_assembly.specs.Power.{power_list};
ghost use Rattle.design_names.specs.Alike.{IsFirstAlike};
ghost use Rattle.design_assembly.specs.declared.assembly.AssemblyStop.TheVariants as stop;

use crate::bits::bits_of;
use crate::known::{add_keepers, learn, power_values};
use bits_core::NoMemory;
use design_core::{DScopes, Design, ItemList, PowerUp, PowerUpList, Signal, SignalList};
use design_names::{first_alike, first_scope_alike};
use std::alloc::Global;

/// Why parts make no design: a scope or a signal prints like an earlier one or one of its bits does, the items that keep bits weigh too much, or want of memory.
#[derive(Debug, Drop)]
pub enum AssemblyStop {
    Scope(usize),
    Signal(usize),
    Heavy,
    NoMemory,
}

impl From<NoMemory> for AssemblyStop {
    ghost use Rattle.std.specs.Prelude.{◌≡◌};
    ghost use Rattle.design_assembly.specs.declared.assembly.AssemblyStop.TheVariants.{NoMemory};

    ghost from_gives = { λ _ stop. stop ≡ NoMemory };

    fn from(_: NoMemory) -> AssemblyStop {
        AssemblyStop::NoMemory
    }
}

/// The items that keep bits are put at the end of the items, and the power-up values are listed.
fn complete(
    alloc: Global,
    signals: &[Signal],
    inits: &[PowerUp],
    items: &mut ItemList,
) -> Result<PowerUpList, NoMemory>
    requires { length signals.now ≤ 2 ^ 22 }
    ensures items { OnOk result (items.new ≡ items.old ++ keepers signals.now items.old inits.now) }
    ensures values { IfOk result (λ r. r ≡ power_list signals.now items.old inits.now) }
{
    let bits = bits_of(alloc, signals)?;
    let known = learn(alloc, signals, items.as_slice(), inits)?;
    add_keepers(alloc, signals, &known, bits.as_slice(), items)?;
    let values = power_values(alloc, &known, bits.as_slice())?;
    Ok(values)
}

/// The design of these scopes, signals and items, where bits are given these values at power-up, of which the last one of a bit counts.
/// A bit that is given a value and that no item drives is kept by an item of its own; these items come last, in the order of bits.
/// `left` is the weight that is left to them: where they weigh more the answer is `Heavy`. Linear in the items' trees and the bits. Fails where memory is wanting.
pub fn assemble(
    alloc: Global,
    scopes: DScopes,
    signals: SignalList,
    items: ItemList,
    inits: &PowerUpList,
    left: u64,
) -> Result<Design, AssemblyStop>
    requires formed { are_formed scopes signals items ≡ true }
    requires scopes { scopes_apart scopes ≡ true }
    requires signals { print_apart signals ≡ true }
    requires light { total_weight signals items + left ≤ 2 ^ 22 }
    ensures scopes { IfOk result (λ d. d.scopes ≡ scopes) }
    ensures signals { IfOk result (λ d. d.signals ≡ signals) }
    ensures items { IfOk result (λ d. d.items ≡ items ++ keepers signals items inits.now) }
    ensures powerup { IfOk result (λ d. d.powerup ≡ power_list signals items inits.now) }
    ensures light { OnOk result (length (keepers signals items inits.now) ≤ left) }
    ensures heavy { result ≡ Err stop.Heavy → left < length (keepers signals items inits.now) }
    ensures other { (k : ℕ) → (result ≡ Err (stop.Scope k) → ⊥) × (result ≡ Err (stop.Signal k) → ⊥) }
{
    let before = items.len();
    let mut items = items;
    let powerup = complete(alloc, signals.as_slice(), inits.as_slice(), &mut items)?;
    if items.len() - before > left as usize {
        return Err(AssemblyStop::Heavy);
    }
    Ok(Design {
        scopes,
        signals,
        items,
        powerup,
    })
}

/// The same of parts that may print alike: the answer is then the first scope with which the scopes no longer print apart, or else the first such signal.
pub fn design_of(
    alloc: Global,
    scopes: DScopes,
    signals: SignalList,
    items: ItemList,
    inits: &PowerUpList,
    left: u64,
) -> Result<Design, AssemblyStop>
    requires formed { are_formed scopes signals items ≡ true }
    requires light { total_weight signals items + left ≤ 2 ^ 22 }
    ensures scopes { IfOk result (λ d. d.scopes ≡ scopes) }
    ensures signals { IfOk result (λ d. d.signals ≡ signals) }
    ensures items { IfOk result (λ d. d.items ≡ items ++ keepers signals items inits.now) }
    ensures powerup { IfOk result (λ d. d.powerup ≡ power_list signals items inits.now) }
    ensures scope { (k : ℕ) → result ≡ Err (stop.Scope k) → IsFirstAlike scopes_apart scopes (Some k) }
    ensures signal { (k : ℕ) → result ≡ Err (stop.Signal k) → (scopes_apart scopes ≡ true) × IsFirstAlike print_apart signals (Some k) }
    ensures light { OnOk result (length (keepers signals items inits.now) ≤ left) }
    ensures heavy { result ≡ Err stop.Heavy → (scopes_apart scopes ≡ true) × (print_apart signals ≡ true) × (left < length (keepers signals items inits.now)) }
{
    if let Some(at) = first_scope_alike(alloc, scopes.as_slice())? {
        return Err(AssemblyStop::Scope(at));
    }
    if let Some(at) = first_alike(alloc, signals.as_slice())? {
        return Err(AssemblyStop::Signal(at));
    }
    assemble(alloc, scopes, signals, items, inits, left)
}
