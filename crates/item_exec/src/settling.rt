ghost use Rattle.std.specs.Prelude.{◌≡◌, ℕ, ◌<◌, Bool, true, false, OnOk, List, [], length, map, All, Some};
ghost use Rattle.design_core.specs.Cells.{IsOrdered, settle};
ghost use Rattle.design_core.specs.Core.{Stmt};
ghost use Rattle.design_core.specs.Items.{CoreItem, cell_of, reset_by};
ghost use Rattle.design_core.specs.Needs.{targets};
ghost use Rattle.design_core.specs.Terms.{stmt};
ghost use Rattle.design_core.specs.Wellformed.{reset_fits};
ghost use Rattle.design_core.specs.declared.place.BitRef.{BitRef};
ghost use Rattle.stmt_exec.specs.State.{IsEnv, assignment, size_in};
ghost use Rattle.value_domain.specs.Meaning.{Keeps};
ghost use Rattle.design_core.specs.Numbers.{chosen_cells};
ghost use Rattle.item_exec.specs.Passes.{AllReady, CanRun, Fits, IsGiven, IsSettled, KeepsKind, cell_in};

use crate::resets::where_bit;
use bits_core::NoMemory;
use design_core::{DReset, Item};
use std::alloc::Global;
use stmt_exec::{exec_where, write_at_once};
use value_domain::Domain;

/// A register while its reset holds: it reads as the branch leaves it. The branch reads no signal, so it may be run on what is stored, and
/// what it stores goes to what is read.
fn hold_reset<D: Domain>(
    alloc: Global,
    domain: &mut D,
    reset: &DReset,
    now: &mut [D::Value],
    next: &mut [D::Value],
) -> Result<(), NoMemory>
    requires env { IsEnv D.meaning domain.old now.old next.old }
    requires fits { reset_fits (map D.meaning.width now.old) (size_in (map D.meaning.width now.old)) (Some reset.now) ≡ true }
    requires kind { (b : BitRef) → targets true (stmt (size_in (map D.meaning.width now.old)) reset.now.branch) b ≡ false }
    ensures kept { Keeps D.meaning domain.old domain.new }
    ensures like { IsEnv D.meaning domain.new now.new next.new }
    ensures wide { map D.meaning.width now.new ≡ map D.meaning.width now.old }
    ensures done { OnOk result ((v : ℕ → Bool) (body : Stmt) → IsGiven (cell_of (reset_by reset.now.bit reset.now.asserted (stmt (size_in (map D.meaning.width now.old)) reset.now.branch) body))
        (assignment (map (D.meaning.reads domain.old v) next.old)) (assignment (map (D.meaning.reads domain.old v) now.old))
        (assignment (map (D.meaning.reads domain.new v) next.new)) (assignment (map (D.meaning.reads domain.new v) now.new))) }
{
    let guard = where_bit(domain, reset.bit, reset.asserted, now)?;
    exec_where(alloc, domain, &guard, &reset.branch, next, now)
}

/// One item within the cycle: the bits that it drives have the values that it gives, and all others keep theirs.
fn settle_item<D: Domain>(
    alloc: Global,
    domain: &mut D,
    item: &Item,
    now: &mut [D::Value],
    next: &mut [D::Value],
) -> Result<(), NoMemory>
    requires env { IsEnv D.meaning domain.old now.old next.old }
    requires fits { Fits (map D.meaning.width now.old) item.now }
    ensures kept { Keeps D.meaning domain.old domain.new }
    ensures like { IsEnv D.meaning domain.new now.new next.new }
    ensures wide { map D.meaning.width now.new ≡ map D.meaning.width now.old }
    ensures done { OnOk result ((v : ℕ → Bool) → IsGiven (cell_in (map D.meaning.width now.old) item.now)
        (assignment (map (D.meaning.reads domain.old v) next.old)) (assignment (map (D.meaning.reads domain.old v) now.old))
        (assignment (map (D.meaning.reads domain.new v) next.new)) (assignment (map (D.meaning.reads domain.new v) now.new))) }
{
    match item {
        Item::Assign { left, right, .. } => write_at_once(alloc, domain, left, right, now, next),
        Item::Comb { body, .. } => exec_where(alloc, domain, &None, body, now, next),
        Item::Clocked { reset, .. } => match reset {
            Some(reset) => hold_reset(alloc, domain, reset, now, next),
            None => Ok(()),
        },
    }
}

/// The items with these numbers within a cycle, one after the other, each once: the assignment becomes the one that their cells make of it.
pub fn settle_items<D: Domain>(
    alloc: Global,
    domain: &mut D,
    items: &[Item],
    order: &[u32],
    now: &mut [D::Value],
    next: &mut [D::Value],
) -> Result<(), NoMemory>
    requires env { IsEnv D.meaning domain.old now.old next.old }
    requires fit { All (CanRun (map D.meaning.width now.old) items.now) order.now }
    requires ordered { IsOrdered (chosen_cells (map (cell_in (map D.meaning.width now.old)) items.now) order.now) }
    requires ready { (v : ℕ → Bool) → AllReady (chosen_cells (map (cell_in (map D.meaning.width now.old)) items.now) order.now)
        (assignment (map (D.meaning.reads domain.old v) next.old)) (assignment (map (D.meaning.reads domain.old v) now.old)) }
    ensures kept { Keeps D.meaning domain.old domain.new }
    ensures like { IsEnv D.meaning domain.new now.new next.new }
    ensures wide { map D.meaning.width now.new ≡ map D.meaning.width now.old }
    ensures done { OnOk result ((v : ℕ → Bool) → IsSettled (chosen_cells (map (cell_in (map D.meaning.width now.old)) items.now) order.now)
        (assignment (map (D.meaning.reads domain.old v) next.old)) (assignment (map (D.meaning.reads domain.old v) now.old))
        (assignment (map (D.meaning.reads domain.new v) next.new)) (assignment (map (D.meaning.reads domain.new v) now.new))) }
{
    for at in 0..order.len() {
        settle_item(alloc, domain, &items[order[at] as usize], now, next)?;
    }
    Ok(())
}
