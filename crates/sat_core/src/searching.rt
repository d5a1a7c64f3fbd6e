ghost use Rattle.std.specs.Prelude.{◌≡◌, ℕ, ◌<◌, ◌≤◌, ◌+◌, ◌^◌, None, length, OnOk, IfOk};
ghost use Rattle.sat_core.specs.Sync.{reads};
ghost use Rattle.sat_core.specs.Round.{RoundSays};
ghost use Rattle.sat_core.specs.Watch.{IsHeld};

use crate::arena::Arena;
use crate::propagation::propagate;
use crate::trail::Trail;
use crate::watching::Watches;
use bits_core::NoMemory;
use cnf_core::Lit;

/// How a search ended.
#[derive(Clone, Copy)]
pub enum Round {
    Full,
    Conflict(usize),
}

/// The least leaf with no value, from a leaf on; the one after the last where there is none.
fn open_leaf(values: &[Option<bool>], from: u32, leaves: u32) -> u32
    requires fit { leaves < length values.now }
    requires small { leaves < 2 ^ 30 }
    requires from { from ≤ leaves + 1 }
    ensures from { from ≤ result }
    ensures upto { result ≤ leaves + 1 }
    ensures given { (y : ℕ) → from ≤ y → y < result → reads values.now y ≡ None → ⊥ }
    ensures open { result ≤ leaves → reads values.now result ≡ None }
{
    let mut leaf = from;
    while leaf <= leaves {
        if values[leaf as usize].is_none() {
            return leaf;
        }
        leaf += 1;
    }
    leaf
}

/// Decides leaves, the least open one first, until all have values or a clause is falsified.
pub fn search(
    clauses: &Arena,
    leaves: u32,
    trail: &mut Trail,
    watches: &mut Watches,
) -> Result<Round, NoMemory>
    requires held { IsHeld clauses.now leaves (length trail.old.values.items) (length clauses.now) trail.old watches.old }
    requires leaves_fit { leaves < length trail.old.values.items }
    requires small { leaves < 2 ^ 30 }
    ensures held { OnOk result (IsHeld clauses.now leaves (length trail.old.values.items) (length clauses.now) trail.new watches.new) }
    ensures says { IfOk result (λ round. RoundSays clauses.now leaves trail.new.values.items round) }
{
    loop {
        if let Some(place) = propagate(clauses, leaves, trail, watches)? {
            return Ok(Round::Conflict(place));
        }
        trail.next = open_leaf(trail.values.as_slice(), trail.next, leaves);
        if trail.next > leaves {
            return Ok(Round::Full);
        }
        trail.push(Lit::of(trail.next, false), 0)?;
    }
}
