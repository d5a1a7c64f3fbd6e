ghost use Rattle.std.specs.Prelude.{◌≡◌, ℕ, ◌<◌, ◌≤◌, ◌++◌, ◌∷◌, [], length, slice_index_or, slice_set, OnOk, IfOk};
ghost use Rattle.cnf_core.specs.Lit.{variable_of};
ghost use Rattle.sat_core.specs.Watch.{code_of, list_at, taken_out, listed_more, listed_less};

use bits_core::NoMemory;
use cnf_core::Lit;
use smallvec::SmallVec;
use std::alloc::Global;
use std::marker::Model;

/// The two literals that a clause is watched at: the same twice where it has no other.
#[derive(Clone, Copy)]
pub struct Pair {
    pub first: Lit,
    pub second: Lit,
}

/// The places of the clauses that are watched at a literal. Contracts see their list. Most literals have three or fewer, which lie
/// in the value itself, so that a formula's lists are made and read without an allocation each.
#[derive(Drop)]
pub struct Watchers {
    places: SmallVec<usize, 3>,
}

impl Model for Watchers {
    ghost use Rattle.std.specs.Prelude.{List, ℕ};

    ghost Value = { List ℕ };

    ghost view = { λ watchers. watchers.places.items };
}

impl Watchers {
    pub fn new(alloc: Global) -> Watchers
        ensures { result ≡ [] }
    {
        Watchers {
            places: SmallVec::new(alloc),
        }
    }

    pub fn len(&self) -> usize
        ensures { result ≡ length self.now }
    {
        self.places.len()
    }

    pub fn get(&self, at: usize) -> usize
        requires { at < length self.now }
        ensures { result ≡ slice_index_or self.now at result }
    {
        self.places.as_slice()[at]
    }

    pub fn push(&mut self, place: usize) -> Result<(), NoMemory>
        ensures { OnOk result (self.new ≡ self.old ++ place ∷ []) }
    {
        self.places.push(place)?;
        Ok(())
    }

    /// Takes out what stands at a place; the last one comes there.
    pub fn take_out(&mut self, at: usize)
        requires { at < length self.old }
        ensures { self.new ≡ taken_out self.old at }
    {
        if let Some(last) = self.places.pop() {
            if at < self.places.len() {
                self.places.as_mut_slice()[at] = last;
            }
        }
    }
}

/// The pair of each clause, and for each literal the clauses that are watched at it.
#[derive(Drop)]
pub struct Watches {
    pub pairs: Vec<Pair>,
    pub lists: Vec<Watchers>,
}

/// The place of a literal's list.
pub fn code(lit: Lit) -> usize
    ensures value { result ≡ code_of lit }
    ensures above { 1 ≤ variable_of lit }
{
    let twice = 2 * lit.variable() as usize;
    if lit.is_positive() { twice + 1 } else { twice }
}

impl Watches {
    /// No clause watched, with room for so many clauses and for the lists of so many literals.
    pub fn new(alloc: Global, clauses: usize, room: usize) -> Result<Watches, NoMemory>
        ensures pairs { IfOk result (λ watches. watches.pairs.items ≡ []) }
        ensures room { IfOk result (λ watches. length watches.lists.items ≡ room) }
    {
        let mut lists = Vec::with_capacity(alloc, room)?;
        for _ in 0..room {
            lists.push(Watchers::new(alloc))?;
        }
        Ok(Watches {
            pairs: Vec::with_capacity(alloc, clauses)?,
            lists,
        })
    }

    /// Puts a clause on the list of a literal.
    fn list(&mut self, lit: Lit, place: usize) -> Result<(), NoMemory>
        requires { code_of lit < length self.old.lists.items }
        ensures lists { OnOk result (self.new.lists.items ≡ listed_more self.old.lists.items (code_of lit) place) }
        ensures pairs { OnOk result (self.new.pairs.items ≡ self.old.pairs.items) }
    {
        self.lists[code(lit)].push(place)?;
        Ok(())
    }

    /// Watches one more clause, at this pair.
    pub fn add(&mut self, pair: Pair) -> Result<(), NoMemory>
        requires first { code_of pair.first < length self.old.lists.items }
        requires second { code_of pair.second < length self.old.lists.items }
        ensures lists { OnOk result (self.new.lists.items ≡ listed_more (listed_more self.old.lists.items (code_of pair.first) (length self.old.pairs.items)) (code_of pair.second) (length self.old.pairs.items)) }
        ensures pairs { OnOk result (self.new.pairs.items ≡ self.old.pairs.items ++ pair ∷ []) }
    {
        let place = self.pairs.len();
        self.list(pair.first, place)?;
        self.list(pair.second, place)?;
        self.pairs.push(pair)?;
        Ok(())
    }

    /// Watches a clause, which stood at a place of a literal's list, at this pair, whose second literal is new.
    pub fn change(&mut self, from: Lit, at: usize, place: usize, pair: Pair) -> Result<(), NoMemory>
        requires from { code_of from < length self.old.lists.items }
        requires to { code_of pair.second < length self.old.lists.items }
        requires other { code_of pair.second ≡ code_of from → ⊥ }
        requires at { at < length (list_at self.old.lists.items (code_of from)) }
        requires place { place < length self.old.pairs.items }
        ensures lists { OnOk result (self.new.lists.items ≡ listed_less (listed_more self.old.lists.items (code_of pair.second) place) (code_of from) at) }
        ensures pairs { OnOk result (self.new.pairs.items ≡ slice_set self.old.pairs.items place pair) }
    {
        self.list(pair.second, place)?;
        self.lists[code(from)].take_out(at);
        self.pairs[place] = pair;
        Ok(())
    }
}
