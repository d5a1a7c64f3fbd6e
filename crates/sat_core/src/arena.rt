ghost use Rattle.std.specs.Prelude.{◌≡◌, ◌<◌, ◌≤◌, ◌++◌, ◌∷◌, [], Some, ◌-◌, length, take, drop, slice_get, IfOk, OnOk};
ghost use Rattle.sat_core.specs.Arena.{pieces, AreEnds, end_before};

use bits_core::NoMemory;
use cnf_core::Lit;
use std::alloc::Global;
use std::marker::Model;

/// Clauses, their literals one after the other. Contracts see the list of clauses.
#[derive(Drop)]
pub struct Arena {
    lits: Vec<Lit>,
    ends: Vec<usize>,
}

impl Model for Arena {
    ghost use Rattle.std.specs.Prelude.{List};
    ghost use Rattle.cnf_core.specs.declared.lit.Lit.{Lit};
    ghost use Rattle.sat_core.specs.Arena.{pieces, AreEnds};

    ghost Value = { List (List Lit) };

    ghost view = { λ arena. pieces 0 arena.ends.items arena.lits.items };

    ghost invariant = { λ arena. AreEnds 0 arena.ends.items arena.lits.items };
}

/// Where the piece at a place begins.
fn start_of(ends: &[usize], at: usize) -> usize
    requires { at ≤ length ends.now }
    ensures { result ≡ end_before 0 ends.now at }
{
    if at == 0 {
        return 0;
    }
    ends[at - 1]
}

/// The literals from one place to another.
fn cut(lits: &[Lit], start: usize, end: usize) -> &[Lit]
    requires order { start ≤ end }
    requires within { end ≤ length lits.now }
    ensures { result.now ≡ take (end - start) (drop start lits.now) }
{
    &lits[start..end]
}

/// The piece at a place.
fn piece<'a>(lits: &'a [Lit], ends: &[usize], at: usize) -> &'a [Lit]
    requires ends { AreEnds 0 ends.now lits.now }
    requires at { at < length ends.now }
    ensures { slice_get (pieces 0 ends.now lits.now) at ≡ Some result.now }
{
    let start = start_of(ends, at);
    let end = ends[at];
    cut(lits, start, end)
}

impl Arena {
    /// No clauses, with room for the ends of so many.
    pub fn new(alloc: Global, clauses: usize) -> Result<Arena, NoMemory>
        ensures { IfOk result (λ arena. arena ≡ []) }
    {
        Ok(Arena {
            lits: Vec::new(alloc),
            ends: Vec::with_capacity(alloc, clauses)?,
        })
    }

    pub fn len(&self) -> usize
        ensures { result ≡ length self.now }
    {
        self.ends.len()
    }

    /// The literals of the clause at a place.
    pub fn clause(&self, at: usize) -> &[Lit]
        requires { at < length self.now }
        ensures { slice_get self.now at ≡ Some result.now }
    {
        piece(self.lits.as_slice(), self.ends.as_slice(), at)
    }

    /// Puts a clause of these literals at the end. Amortized, linear in the clause.
    pub fn push(&mut self, lits: &[Lit]) -> Result<(), NoMemory>
        ensures { OnOk result (self.new ≡ self.old ++ lits.now ∷ []) }
    {
        let end = self.lits.len();
        self.lits.extend_from_slice(lits)?;
        if self.ends.push(self.lits.len()).is_err() {
            self.lits.truncate(end);
            return Err(NoMemory);
        }
        Ok(())
    }
}
