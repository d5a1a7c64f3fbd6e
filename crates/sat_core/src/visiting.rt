ghost use Rattle.std.specs.Prelude.{◌≡◌, ℕ, ◌<◌, ◌+◌, length, OnOk, IfOk, MatchOption, MatchBool};
ghost use Rattle.cnf_core.specs.Lit.{variable_of};
ghost use Rattle.sat_core.specs.Sync.{reads, Fits, IsConflict};
ghost use Rattle.sat_core.specs.Watch.{code_of, list_at, AreWatched, IsHeld, IsVisiting, Went, first_values};
ghost use Rattle.sat_core.specs.Looks.{LookSays, OnlyOpen, IsFree, TurnSays};

use crate::arena::Arena;
use crate::trail::{Trail, is_false, is_true};
use crate::watching::{Pair, Watches, code};
use bits_core::NoMemory;
use cnf_core::Lit;

/// What becomes of a clause when a literal that it is watched at is false: nothing, since it isn't watched there or the
/// other literal is true; the other literal stays and a new one comes; the other literal is forced; or all are false.
#[derive(Clone, Copy)]
pub enum Look {
    Stays,
    Moves(Lit, Lit),
    Forces(Lit),
    Falsified,
}

/// Where a visit goes on: with the next clause of the list, at the same place, or not at all.
#[derive(Clone, Copy)]
pub enum Turn {
    Next,
    Again,
    Conflict(usize),
}

/// Whether two literals are the same.
pub fn same(a: Lit, b: Lit) -> bool
    ensures { MatchBool result (a ≡ b) (a ≡ b → ⊥) }
{
    a.value() == b.value()
}

/// A literal of the clause that isn't false, and isn't this one.
fn free_literal(values: &[Option<bool>], clause: &[Lit], other: Lit) -> Option<Lit>
    requires { Fits (length values.now) clause.now }
    ensures { MatchOption result (OnlyOpen (reads values.now) other clause.now) (λ n. IsFree (reads values.now) clause.now other n) }
{
    for lit in clause {
        if !same(*lit, other) && !is_false(values, *lit) {
            return Some(*lit);
        }
    }
    None
}

fn judge(values: &[Option<bool>], clause: &[Lit], pair: Pair, lit: Lit) -> Look
    requires fit { Fits (length values.now) clause.now }
    requires first { variable_of pair.first < length values.now }
    requires second { variable_of pair.second < length values.now }
    ensures { LookSays (reads values.now) clause.now pair lit result }
{
    let other = if same(pair.first, lit) {
        pair.second
    } else if same(pair.second, lit) {
        pair.first
    } else {
        return Look::Stays;
    };
    if is_true(values, other) {
        return Look::Stays;
    }
    match free_literal(values, clause, other) {
        Some(free) => Look::Moves(other, free),
        None => {
            if is_false(values, other) {
                Look::Falsified
            } else {
                Look::Forces(other)
            }
        }
    }
}

/// One clause of the list of a literal that is false.
fn take_turn(
    clauses: &Arena,
    leaves: u32,
    trail: &mut Trail,
    watches: &mut Watches,
    lit: Lit,
    at: usize,
) -> Result<Turn, NoMemory>
    requires visiting { IsVisiting clauses.now leaves (length trail.old.values.items) (length watches.old.pairs.items) trail.old watches.old lit at }
    requires at { at < length (list_at watches.old.lists.items (code_of lit)) }
    ensures went { OnOk result (Went trail.old trail.new) }
    ensures says { IfOk result (λ turn. TurnSays clauses.now leaves (length trail.old.values.items) (length watches.old.pairs.items) trail.new watches.old watches.new lit at turn) }
{
    let place = watches.lists[code(lit)].get(at);
    if place >= watches.pairs.len() {
        return Ok(Turn::Next);
    }
    let pair = watches.pairs[place];
    match judge(trail.values.as_slice(), clauses.clause(place), pair, lit) {
        Look::Stays => Ok(Turn::Next),
        Look::Moves(first, second) => {
            watches.change(lit, at, place, Pair { first, second })?;
            Ok(Turn::Again)
        }
        Look::Forces(other) => {
            trail.push(other, place + 1)?;
            Ok(Turn::Next)
        }
        Look::Falsified => Ok(Turn::Conflict(place)),
    }
}

/// The clauses that are watched at a literal, once it is false; the place of one that is falsified.
pub fn visit(
    clauses: &Arena,
    leaves: u32,
    trail: &mut Trail,
    watches: &mut Watches,
    lit: Lit,
) -> Result<Option<usize>, NoMemory>
    requires { IsVisiting clauses.now leaves (length trail.old.values.items) (length watches.old.pairs.items) trail.old watches.old lit 0 }
    ensures went { OnOk result (Went trail.old trail.new) }
    ensures held { OnOk result (IsHeld clauses.now leaves (length trail.old.values.items) (length watches.old.pairs.items) trail.new watches.new) }
    ensures says { IfOk result (λ found. MatchOption found (AreWatched (first_values (trail.new.done + 1) trail.new.marks) (reads trail.new.values.items) clauses.now watches.new.pairs.items) (IsConflict clauses.now (reads trail.new.values.items))) }
{
    let list = code(lit);
    let mut at = 0;
    while at < watches.lists[list].len() {
        match take_turn(clauses, leaves, trail, watches, lit, at)? {
            Turn::Next => at += 1,
            Turn::Again => {}
            Turn::Conflict(place) => return Ok(Some(place)),
        }
    }
    Ok(None)
}
