ghost use Rattle.std.specs.Prelude.{◌≡◌, ℕ, ◌<◌, Bool, true, false, OnOk, List, [], length, map, All, Some};
ghost use Rattle.design_core.specs.Cells.{Bitmap, IsOrdered};
ghost use Rattle.design_core.specs.Core.{Assignment};
ghost use Rattle.design_core.specs.Formed.{of_kind, sized_stmt};
ghost use Rattle.design_core.specs.Items.{cell_of, reset_by};
ghost use Rattle.design_core.specs.Needs.{targets};
ghost use Rattle.design_core.specs.Terms.{stmt};
ghost use Rattle.design_core.specs.Wellformed.{reset_fits};
ghost use Rattle.design_core.specs.declared.place.BitRef.{BitRef};
ghost use Rattle.stmt_exec.specs.State.{IsEnv, assignment, size_in};
ghost use Rattle.value_domain.specs.Meaning.{Keeps};
ghost use Rattle.design_core.specs.Numbers.{chosen_cells};
ghost use Rattle.item_exec.specs.Passes.{CanRun, Fits, IsKept, IsStored, cell_in};

use crate::resets::where_bit;
use bits_core::NoMemory;
use design_core::{DReset, DStmt, Item};
use std::alloc::Global;
use stmt_exec::exec_where;
use value_domain::Domain;

/// A register with a reset at the end of the cycle: its body is run where the reset does not hold, and then its branch where it does.
fn store_reset<D: Domain>(
    alloc: Global,
    domain: &mut D,
    reset: &DReset,
    body: &DStmt,
    now: &mut [D::Value],
    next: &mut [D::Value],
) -> Result<(), NoMemory>
    requires env { IsEnv D.meaning domain.old now.old next.old }
    requires fits { reset_fits (map D.meaning.width now.old) (size_in (map D.meaning.width now.old)) (Some reset.now) ≡ true }
    requires formed { (sized_stmt (map D.meaning.width now.old) body.now).formed [] false (of_kind false) ≡ true }
    requires body_kind { (b : BitRef) → targets true (stmt (size_in (map D.meaning.width now.old)) body.now) b ≡ false }
    requires branch_kind { (b : BitRef) → targets true (stmt (size_in (map D.meaning.width now.old)) reset.now.branch) b ≡ false }
    ensures kept { Keeps D.meaning domain.old domain.new }
    ensures like { IsEnv D.meaning domain.new now.new next.new }
    ensures wide { map D.meaning.width now.new ≡ map D.meaning.width now.old }
    ensures done { OnOk result ((v : ℕ → Bool) (s : Assignment)
        → IsStored (cell_of (reset_by reset.now.bit reset.now.asserted (stmt (size_in (map D.meaning.width now.old)) reset.now.branch) (stmt (size_in (map D.meaning.width now.old)) body.now)))
        s (assignment (map (D.meaning.reads domain.old v) now.old)) (assignment (map (D.meaning.reads domain.old v) next.old))
        (assignment (map (D.meaning.reads domain.new v) now.new)) (assignment (map (D.meaning.reads domain.new v) next.new))) }
{
    let held = where_bit(domain, reset.bit, reset.asserted, now)?;
    let free = where_bit(domain, reset.bit, !reset.asserted, now)?;
    exec_where(alloc, domain, &free, body, now, next)?;
    exec_where(alloc, domain, &held, &reset.branch, now, next)
}

/// One item at the end of the cycle: the stored bits that it drives become what it gives, and all others stay.
fn store_item<D: Domain>(
    alloc: Global,
    domain: &mut D,
    item: &Item,
    now: &mut [D::Value],
    next: &mut [D::Value],
) -> Result<(), NoMemory>
    requires env { IsEnv D.meaning domain.old now.old next.old }
    requires fits { Fits (map D.meaning.width now.old) item.now }
    ensures kept { Keeps D.meaning domain.old domain.new }
    ensures like { IsEnv D.meaning domain.new now.new next.new }
    ensures wide { map D.meaning.width now.new ≡ map D.meaning.width now.old }
    ensures done { OnOk result ((v : ℕ → Bool) (s : Assignment) → IsStored (cell_in (map D.meaning.width now.old) item.now)
        s (assignment (map (D.meaning.reads domain.old v) now.old)) (assignment (map (D.meaning.reads domain.old v) next.old))
        (assignment (map (D.meaning.reads domain.new v) now.new)) (assignment (map (D.meaning.reads domain.new v) next.new))) }
{
    match item {
        Item::Clocked { reset, body, .. } => match reset {
            Some(reset) => store_reset(alloc, domain, reset, body, now, next),
            None => exec_where(alloc, domain, &None, body, now, next),
        },
        Item::Assign { .. } => Ok(()),
        Item::Comb { .. } => Ok(()),
    }
}

/// The items with these numbers at the end of a cycle, one after the other, each once: what is stored becomes the next state, and what is read stays.
pub fn store_items<D: Domain>(
    alloc: Global,
    domain: &mut D,
    items: &[Item],
    order: &[u32],
    now: &mut [D::Value],
    next: &mut [D::Value],
) -> Result<(), NoMemory>
    requires env { IsEnv D.meaning domain.old now.old next.old }
    requires fit { All (CanRun (map D.meaning.width now.old) items.now) order.now }
    requires ordered { IsOrdered (chosen_cells (map (cell_in (map D.meaning.width now.old)) items.now) order.now) }
    ensures kept { Keeps D.meaning domain.old domain.new }
    ensures like { IsEnv D.meaning domain.new now.new next.new }
    ensures wide { map D.meaning.width now.new ≡ map D.meaning.width now.old }
    ensures done { OnOk result ((v : ℕ → Bool) → IsKept (chosen_cells (map (cell_in (map D.meaning.width now.old)) items.now) order.now)
        (assignment (map (D.meaning.reads domain.old v) next.old)) (assignment (map (D.meaning.reads domain.old v) now.old))
        (assignment (map (D.meaning.reads domain.new v) now.new)) (assignment (map (D.meaning.reads domain.new v) next.new))) }
{
    for at in 0..order.len() {
        store_item(alloc, domain, &items[order[at] as usize], now, next)?;
    }
    Ok(())
}
