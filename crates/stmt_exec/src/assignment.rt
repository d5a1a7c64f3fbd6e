ghost use Rattle.std.specs.Prelude.{◌≡◌, ℕ, ◌≤◌, Bool, true, All, OnOk, map, sum_by};
ghost use Rattle.design_core.specs.Core.{puts};
ghost use Rattle.stmt_exec.specs.Aims.{IsTarget, aim_of, all_places};
ghost use Rattle.stmt_exec.specs.State.{IsFrame, IsLike, ran, state_in};
ghost use Rattle.value_domain.specs.Meaning.{Keeps};
ghost use Rattle.value_domain.specs.Words.{IsGuard, allows};

use crate::aims::{Target, write_all};
use bits_core::NoMemory;
use std::alloc::Global;
use value_domain::Domain;

/// An assignment: under each valuation the value is written to the targets as in a statement, where the guard allows it, and nothing
/// changes where it does not (IEEE 1364-2005, 9.2). In a function `now` has its locals and `outer` the signals, else `now` and `next` have
/// the signals. Linear in the lengths of the vectors that are written; no other value is copied.
pub fn assign<D: Domain>(
    alloc: Global,
    domain: &mut D,
    targets: &[Target<D::Value>],
    value: &D::Value,
    guard: &Option<D::Value>,
    blocking: bool,
    inside: bool,
    outer: &[D::Value],
    now: &mut [D::Value],
    next: &mut [D::Value],
) -> Result<(), NoMemory>
    requires guard_is { IsGuard D.meaning domain.old guard.now }
    requires value_is { D.meaning.is_value domain.old value.now }
    requires frame { IsFrame D.meaning domain.old inside outer.now now.old next.old }
    requires targets_are { All (IsTarget D.meaning (map D.meaning.width now.old) domain.old) targets.now }
    requires bits { sum_by (λ t. t.length) targets.now ≤ 65536 }
    requires kind { inside ≡ true → blocking ≡ true }
    ensures kept { Keeps D.meaning domain.old domain.new }
    ensures like { IsLike D.meaning domain.new inside outer.now now.new next.new now.old }
    ensures done { OnOk result ((v : ℕ → Bool) → state_in D.meaning domain.new v inside outer.now now.new next.new
        ≡ ran (allows D.meaning domain.old v guard.now)
        (puts blocking (all_places inside (map (aim_of D.meaning inside (map D.meaning.width now.old) domain.old v) targets.now)) (D.meaning.reads domain.old v value.now)
        (state_in D.meaning domain.old v inside outer.now now.old next.old))
        (state_in D.meaning domain.old v inside outer.now now.old next.old)) }
{
    if blocking {
        write_all(alloc, domain, targets, value, guard, now)
    } else {
        write_all(alloc, domain, targets, value, guard, next)
    }
}
