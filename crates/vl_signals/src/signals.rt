ghost use Rattle.std.specs.Prelude.{◌≡◌, ◌++◌, ◌∷◌, [], length, map, IfOk, OnOk};
ghost use Rattle.std.specs.Option.{option_copied};
ghost use Rattle.vl_names.specs.Names.{listed};
ghost use Rattle.vl_names.specs.Outward.{all, scope as seen_scope};
ghost use Rattle.vl_signals.specs.Signals as spec;

use bits_core::{Items, Name, NoMemory};
use design_core::{DScopes, Scope as DScope, Signal, SignalList};
use std::alloc::Global;
use vl_items::copied;
use vl_names::{Index, Kind, Scope, Slot};
use vl_size::SizeEntry;

/// Beside each name of a scope its number, where it is a signal.
pub type NumberRow = Items<Option<u32>>;

pub type NumberRows = Items<NumberRow>;

/// The signals of a design in order, and for each scope the numbers of its names.
#[derive(Drop)]
pub struct Signals {
    pub signals: SignalList,
    pub numbers: NumberRows,
}

fn module_name(alloc: Global, names: &Index, scope: &Scope) -> Result<Name, NoMemory>
    ensures { IfOk result (λ r. r ≡ (spec.design_scope (listed names.now) (seen_scope scope.now)).«module») }
{
    if scope.block {
        return Ok(Items::new(alloc));
    }
    match names.as_slice().get(scope.home as usize) {
        None => Ok(Items::new(alloc)),
        Some(name) => copied(alloc, name),
    }
}

fn design_scope(alloc: Global, names: &Index, scope: &Scope) -> Result<DScope, NoMemory>
    ensures { IfOk result (λ r. r ≡ spec.design_scope (listed names.now) (seen_scope scope.now)) }
{
    Ok(DScope {
        parent: scope.parent,
        name: copied(alloc, scope.name.as_slice())?,
        path: copied(alloc, scope.path.as_slice())?,
        module: module_name(alloc, names, scope)?,
    })
}

/// The scopes of a design, where the modules of the source have these names in order. Linear in names and paths.
pub fn design_scopes(alloc: Global, names: &Index, scopes: &[Scope]) -> Result<DScopes, NoMemory>
    ensures { IfOk result (λ r. r ≡ spec.design_scopes (listed names.now) (all scopes.now)) }
{
    let mut made = Items::new(alloc);
    for scope in scopes {
        made.push(design_scope(alloc, names, scope)?)?;
    }
    Ok(made)
}

fn signal_entry(slot: &Slot) -> Option<&SizeEntry>
    ensures { option_copied result ≡ spec.signal_entry slot.now }
{
    match slot.kind {
        Kind::Signal => slot.entry.as_ref(),
        Kind::Constant | Kind::Function | Kind::GenVar => None,
    }
}

fn path_of(alloc: Global, path: &[u8], name: &[u8]) -> Result<Name, NoMemory>
    ensures { IfOk result (λ r. r ≡ path.now ++ 46 ∷ name.now) }
{
    let mut all = Vec::new(alloc);
    all.extend_from_slice(path)?;
    all.push(b'.')?;
    all.extend_from_slice(name)?;
    Ok(Items::of(all))
}

fn signal(alloc: Global, scope: u32, path: &[u8], entry: &SizeEntry) -> Result<Signal, NoMemory>
    ensures { IfOk result (λ r. r ≡ spec.signal scope path.now entry.now) }
{
    Ok(Signal {
        scope,
        name: copied(alloc, entry.name.as_slice())?,
        path: path_of(alloc, path, entry.name.as_slice())?,
        word: None,
        length: entry.length,
        signed: entry.signed,
        ranged: entry.ranged,
        high: entry.high,
        low: entry.low,
    })
}

fn as_number(count: usize) -> Result<u32, NoMemory>
    ensures { IfOk result (λ r. r ≡ count) }
{
    match u32::try_from(count) {
        Ok(number) => Ok(number),
        Err(_) => Err(NoMemory),
    }
}

/// The signal of a name, if it is one, is put at the end; the answer is its number.
fn add_signal(
    alloc: Global,
    scope: u32,
    path: &[u8],
    slot: &Slot,
    signals: &mut SignalList,
) -> Result<Option<u32>, NoMemory>
    ensures signals { OnOk result (signals.new ≡ signals.old ++ spec.entry_signals scope path.now (spec.signal_entry slot.now)) }
    ensures number { IfOk result (λ r. r ≡ spec.number_by (length signals.old) (spec.signal_entry slot.now)) }
{
    match signal_entry(slot) {
        None => Ok(None),
        Some(entry) => {
            let number = as_number(signals.len())?;
            signals.push(signal(alloc, scope, path, entry)?)?;
            Ok(Some(number))
        }
    }
}

fn add_signals(
    alloc: Global,
    scope: u32,
    path: &[u8],
    slots: &[Slot],
    signals: &mut SignalList,
) -> Result<NumberRow, NoMemory>
    ensures signals { OnOk result (signals.new ≡ signals.old ++ spec.slot_signals scope path.now slots.now) }
    ensures numbers { IfOk result (λ r. r ≡ spec.slot_numbers (length signals.old) slots.now) }
    ensures behind { OnOk result (length signals.new ≡ spec.behind_slots (length signals.old) slots.now) }
{
    let mut numbers = Items::new(alloc);
    for slot in slots {
        numbers.push(add_signal(alloc, scope, path, slot, signals)?)?;
    }
    Ok(numbers)
}

/// The signals of all scopes, scope by scope, and in each in the order of its text; and their numbers. Linear in names and paths.
pub fn signals_of(alloc: Global, scopes: &[Scope]) -> Result<Signals, NoMemory>
    ensures signals { IfOk result (λ r. r.signals ≡ spec.all_signals (all scopes.now)) }
    ensures numbers { IfOk result (λ r. r.numbers ≡ spec.all_numbers (all scopes.now)) }
{
    let mut signals = Items::new(alloc);
    let mut numbers = Items::new(alloc);
    for (at, scope) in scopes.iter().enumerate() {
        let slots = scope.table.slots.as_slice();
        let number = as_number(at)?;
        numbers.push(add_signals(alloc, number, scope.path.as_slice(), slots, &mut signals)?)?;
    }
    Ok(Signals { signals, numbers })
}
