ghost use Rattle.std.specs.Prelude.{◌≡◌, ℕ, ◌<◌, ◌≤◌, ◌+◌, ◌^◌, ◌++◌, ◌∷◌, [], List, None, true, false, length, slice_get, Some, reverse, IfOk, OnOk, MatchOption, MatchBool};
ghost use Rattle.cnf_core.specs.declared.lit.Lit.{Lit};
ghost use Rattle.cnf_core.specs.Learned.{Each, IsLeafLit};
ghost use Rattle.sat_core.specs.Jump.{LastIs, AreLast};
ghost use Rattle.sat_core.specs.Learn.{PairSays, IsPairAt, SettleSays, BeginSays, IsBegun, IsRefuted};
ghost use Rattle.sat_core.specs.Solved.{IsTraced};
ghost use Rattle.sat_core.specs.Sync.{reads, IsConflict};
ghost use Rattle.sat_core.specs.Watch.{IsHeld};

use crate::arena::Arena;
use crate::jumping::jump;
use crate::trail::{Trail, is_false, is_true};
use crate::visiting::same;
use crate::watching::{Pair, Watches};
use bits_core::NoMemory;
use cnf_core::Lit;

/// Two different literals of a clause, or the only one twice; none where it is empty.
fn pair_of(clause: &[Lit]) -> Option<Pair>
    ensures { PairSays clause.now result }
{
    let Some(first) = clause.first() else {
        return None;
    };
    for lit in clause {
        if !same(*first, *lit) {
            return Some(Pair {
                first: *first,
                second: *lit,
            });
        }
    }
    Some(Pair {
        first: *first,
        second: *first,
    })
}

/// Makes the literal of a clause that has no other one true; whether it is false.
fn settle(
    clauses: &Arena,
    leaves: u32,
    trail: &mut Trail,
    watches: &Watches,
    pair: &Pair,
    place: usize,
) -> Result<bool, NoMemory>
    requires begun { IsBegun clauses.now leaves (length trail.old.values.items) place trail.old watches.now }
    requires pair { IsPairAt clauses.now place pair.now }
    ensures size { OnOk result (length trail.new.values.items ≡ length trail.old.values.items) }
    ensures says { IfOk result (λ fails. SettleSays clauses.now leaves (length trail.old.values.items) place trail.new watches.now pair.now fails) }
{
    if !same(pair.first, pair.second) {
        return Ok(false);
    }
    if is_false(trail.values.as_slice(), pair.first) {
        return Ok(true);
    }
    if is_true(trail.values.as_slice(), pair.first) {
        return Ok(false);
    }
    trail.push(pair.first, place + 1)?;
    Ok(false)
}

/// Watches the next clause; whether it is falsified, as it has one literal at most.
fn begin_clause(
    clauses: &Arena,
    leaves: u32,
    trail: &mut Trail,
    watches: &mut Watches,
    place: usize,
) -> Result<bool, NoMemory>
    requires begun { IsBegun clauses.now leaves (length trail.old.values.items) place trail.old watches.old }
    requires place { place < length clauses.now }
    ensures size { OnOk result (length trail.new.values.items ≡ length trail.old.values.items) }
    ensures says { IfOk result (λ fails. BeginSays clauses.now leaves (length trail.old.values.items) place trail.new watches.new fails) }
{
    let Some(pair) = pair_of(clauses.clause(place)) else {
        return Ok(true);
    };
    if settle(clauses, leaves, trail, watches, &pair, place)? {
        return Ok(true);
    }
    watches.add(pair)?;
    Ok(false)
}

/// Watches each clause; the place of one that is falsified before any decision.
pub fn begin(
    clauses: &Arena,
    leaves: u32,
    trail: &mut Trail,
    watches: &mut Watches,
) -> Result<Option<usize>, NoMemory>
    requires { IsBegun clauses.now leaves (length trail.old.values.items) 0 trail.old watches.old }
    ensures size { OnOk result (length trail.new.values.items ≡ length trail.old.values.items) }
    ensures says { IfOk result (λ found. MatchOption found (IsHeld clauses.now leaves (length trail.old.values.items) (length clauses.now) trail.new watches.new) (IsRefuted clauses.now leaves (length trail.old.values.items) trail.new)) }
{
    for place in 0..clauses.len() {
        if begin_clause(clauses, leaves, trail, watches, place)? {
            return Ok(Some(place));
        }
    }
    Ok(None)
}

/// The variable of the literal before the last; 0 where there is none.
fn second_variable(lits: &[Lit]) -> u32
    ensures last { (front : List Lit) (l : Lit) → lits.now ≡ front ++ l ∷ [] → LastIs front result }
    ensures small { result < 2 ^ 30 }
{
    if lits.len() > 1 {
        return lits[lits.len() - 2].variable();
    }
    0
}

/// The last literal and the one before it, or the last one twice where it is alone.
fn last_pair(lits: &[Lit]) -> Pair
    requires { 1 ≤ length lits.now }
    ensures { (front : List Lit) (l : Lit) → lits.now ≡ front ++ l ∷ [] → AreLast front l result }
{
    let first = lits[lits.len() - 1];
    if lits.len() > 1 {
        return Pair {
            first,
            second: lits[lits.len() - 2],
        };
    }
    Pair {
        first,
        second: first,
    }
}

/// Jumps back to the second greatest decision of a clause, and learns the clause: its greatest literal is true then.
pub fn learn(
    clauses: &mut Arena,
    leaves: u32,
    trail: &mut Trail,
    watches: &mut Watches,
    lits: &[Lit],
) -> Result<(), NoMemory>
    requires held { IsHeld clauses.old leaves (length trail.old.values.items) (length clauses.old) trail.old watches.old }
    requires traced { IsTraced clauses.old trail.old.marks lits.now }
    requires leaf_lits { Each (IsLeafLit leaves) lits.now }
    requires full { 1 ≤ length lits.now }
    requires fit { leaves < length trail.old.values.items }
    requires few { length clauses.old < 2 ^ 62 }
    ensures clauses { OnOk result (clauses.new ≡ clauses.old ++ lits.now ∷ []) }
    ensures size { OnOk result (length trail.new.values.items ≡ length trail.old.values.items) }
    ensures held { OnOk result (IsHeld clauses.new leaves (length trail.old.values.items) (length clauses.new) trail.new watches.new) }
{
    let pair = last_pair(lits);
    jump(trail, second_variable(lits));
    let place = clauses.len();
    clauses.push(lits)?;
    trail.push(pair.first, place + 1)?;
    watches.add(pair)?;
    Ok(())
}
