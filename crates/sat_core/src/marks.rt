ghost use Rattle.std.specs.Prelude.{◌≡◌, ℕ, ◌-◌, ◌≤◌, ◌<◌, ◌++◌, ◌∷◌, [], cond, eqb, length, slice_index_or, take, reverse, MatchOption, OnOk, OnErr};
ghost use Rattle.sat_core.specs.Decisions.{decision_places};
ghost use Rattle.sat_core.specs.Places.{HasMark, StandsAt};
ghost use Rattle.sat_core.specs.Trail.{AreFresh};

use crate::trail::Mark;
use bits_core::NoMemory;
use std::alloc::Global;
use std::marker::Model;

/// The literals made true, oldest first, with the place of the mark of each variable that has one, and the places of the
/// decisions. Contracts see the marks.
#[derive(Drop)]
pub struct Marks {
    list: Vec<Mark>,
    places: Vec<usize>,
    decisions: Vec<usize>,
}

impl Model for Marks {
    ghost use Rattle.std.specs.Prelude.{List};
    ghost use Rattle.sat_core.specs.declared.trail.Mark.{Mark};
    ghost use Rattle.sat_core.specs.Decisions.{AreDecisions};
    ghost use Rattle.sat_core.specs.Places.{ArePlaces};

    ghost Value = { List Mark };

    ghost view = { λ marks. marks.list.items };

    ghost invariant = { λ marks. ArePlaces marks.places.items marks.list.items × AreDecisions marks.decisions.items marks.list.items };
}

/// Makes room for so many places.
fn grow(places: &mut Vec<usize>, size: usize) -> Result<(), NoMemory>
    ensures room { OnOk result (size ≤ length places.new.items) }
    ensures more { length places.old.items ≤ length places.new.items }
    ensures same { (x : ℕ) → x < length places.old.items → slice_index_or places.new.items x 0 ≡ slice_index_or places.old.items x 0 }
{
    if places.len() < size {
        places.resize(size, 0)?;
    }
    Ok(())
}

/// Puts the place of a mark at the end, where the mark is a decision.
fn put_decision(decisions: &mut Vec<usize>, reason: usize, place: usize) -> Result<(), NoMemory>
    ensures ok { OnOk result (decisions.new.items ≡ cond (eqb reason 0) (decisions.old.items ++ place ∷ []) decisions.old.items) }
    ensures err { OnErr result (decisions.new.items ≡ decisions.old.items) }
{
    if reason == 0 {
        decisions.push(place)?;
    }
    Ok(())
}

/// Takes the last place away, where the mark that stood there is a decision.
fn take_decision(decisions: &mut Vec<usize>, reason: usize)
    ensures { decisions.new.items ≡ cond (eqb reason 0) (take (length decisions.old.items - 1) decisions.old.items) decisions.old.items }
{
    if reason == 0 {
        decisions.pop();
    }
}

impl Marks {
    /// No marks. Takes no memory.
    pub fn new(alloc: Global) -> Marks
        ensures { result ≡ [] }
    {
        Marks {
            list: Vec::new(alloc),
            places: Vec::new(alloc),
            decisions: Vec::new(alloc),
        }
    }

    pub fn len(&self) -> usize
        ensures { result ≡ length self.now }
    {
        self.list.len()
    }

    pub fn get(&self, at: usize) -> Mark
        requires { at < length self.now }
        ensures { result ≡ slice_index_or self.now at result }
    {
        self.list[at]
    }

    /// Where the mark of a variable stands.
    pub fn place(&self, variable: u32) -> usize
        requires { HasMark self.now variable }
        ensures { StandsAt self.now result variable }
    {
        self.places[variable as usize]
    }

    /// Puts a mark at the end. Amortized constant, but for the greatest variable so far.
    pub fn push(&mut self, mark: Mark) -> Result<(), NoMemory>
        ensures { OnOk result (self.new ≡ self.old ++ mark ∷ []) }
    {
        let variable = mark.lit.variable() as usize;
        let place = self.list.len();
        let count = self.decisions.len();
        grow(&mut self.places, variable + 1)?;
        put_decision(&mut self.decisions, mark.reason, place)?;
        if self.list.push(mark).is_err() {
            self.decisions.truncate(count);
            return Err(NoMemory);
        }
        self.places[variable] = place;
        Ok(())
    }

    /// Takes the newest mark away.
    pub fn pop(&mut self) -> Option<Mark>
        requires { AreFresh (reverse self.old) }
        ensures { MatchOption result (length self.old ≡ 0) (λ mark. self.old ≡ self.new ++ mark ∷ []) }
    {
        match self.list.pop() {
            Some(mark) => {
                take_decision(&mut self.decisions, mark.reason);
                Some(mark)
            }
            None => None,
        }
    }

    /// How many decisions there are.
    pub fn levels(&self) -> usize
        ensures { result ≡ length (decision_places (reverse self.now)) }
    {
        self.decisions.len()
    }

    /// Where a decision stands, by its number, the oldest being 0.
    pub fn decision(&self, level: usize) -> usize
        requires { level < length (decision_places (reverse self.now)) }
        ensures { result ≡ slice_index_or (reverse (decision_places (reverse self.now))) level result }
    {
        self.decisions[level]
    }
}
