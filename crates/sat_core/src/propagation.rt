ghost use Rattle.std.specs.Prelude.{◌≡◌, ◌≤◌, length, OnOk, IfOk, MatchOption};
ghost use Rattle.sat_core.specs.Sync.{reads, open_count, IsConflict};
ghost use Rattle.sat_core.specs.Watch.{IsHeld};

use crate::arena::Arena;
use crate::trail::Trail;
use crate::visiting::visit;
use crate::watching::Watches;
use bits_core::NoMemory;

/// Makes the literals of unit clauses true until nothing is left to do, or a clause is falsified. A clause is looked at only
/// where a literal that it is watched at becomes false.
pub fn propagate(
    clauses: &Arena,
    leaves: u32,
    trail: &mut Trail,
    watches: &mut Watches,
) -> Result<Option<usize>, NoMemory>
    requires { IsHeld clauses.now leaves (length trail.old.values.items) (length watches.old.pairs.items) trail.old watches.old }
    ensures held { OnOk result (IsHeld clauses.now leaves (length trail.old.values.items) (length watches.old.pairs.items) trail.new watches.new) }
    ensures fewer { OnOk result (open_count trail.new.values.items ≤ open_count trail.old.values.items) }
    ensures says { IfOk result (λ found. MatchOption found (trail.new.done ≡ length trail.new.marks) (IsConflict clauses.now (reads trail.new.values.items))) }
{
    while trail.done < trail.marks.len() {
        let lit = trail.marks.get(trail.done).lit.negated();
        if let Some(place) = visit(clauses, leaves, trail, watches, lit)? {
            return Ok(Some(place));
        }
        trail.done += 1;
    }
    Ok(None)
}
