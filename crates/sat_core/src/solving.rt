ghost use Rattle.std.specs.Prelude.{◌≡◌, ℕ, ◌+◌, ◌++◌, ◌∷◌, ◌<◌, ◌≤◌, ◌^◌, [], None, false, length, map, All, OnOk, IfOk};
ghost use Rattle.cnf_core.specs.declared.formula.Step.TheVariants.{Add};
ghost use Rattle.cnf_core.specs.Closed.{AreDecided};
ghost use Rattle.cnf_core.specs.Learned.{Each};
ghost use Rattle.cnf_core.specs.Lit.{variable_of};
ghost use Rattle.sat_core.specs.Solved.{OutcomeSays, as_true};
ghost use Rattle.sat_core.specs.Sync.{Fits};

use crate::analysis::analyse;
use crate::arena::Arena;
use crate::learning::{begin, learn};
use crate::pending::Pending;
use crate::searching::{Round, search};
use crate::trail::Trail;
use crate::watching::Watches;
use bits_core::{Items, NoMemory};
use cnf_core::{Clause, Formula, Lit, Log, Step};
use std::alloc::Global;

/// An assignment: the value of variable i + 1 stands at place i.
pub type Assignment = Items<bool>;

/// What the solver found: the first model, a log that refutes the formula within the budget, or the learned log of a
/// budget that was spent.
#[derive(Debug, Drop)]
pub enum Outcome {
    Sat(Assignment),
    Unsat(Log),
    Spent(Log),
}

/// No literal of the clause has the variable 0. Costs nothing: what it says is proved.
fn see_variables(clause: &[Lit])
    ensures { All (λ l. 1 ≤ variable_of l) clause.now }
{
    for lit in clause {
        prove!(lit.variable() > 0);
    }
}

/// The clauses, one after the other; none has the variable 0.
fn gathered(alloc: Global, clauses: &[Clause]) -> Result<Arena, NoMemory>
    ensures same { IfOk result (λ arena. arena ≡ clauses.now) }
    ensures above { OnOk result (All (All (λ l. 1 ≤ variable_of l)) clauses.now) }
{
    let mut arena = Arena::new(alloc, clauses.len())?;
    for clause in clauses {
        see_variables(clause.as_slice());
        arena.push(clause.as_slice())?;
    }
    Ok(arena)
}

/// The values as an assignment, 0 where there is none.
fn assignment(alloc: Global, values: &[Option<bool>]) -> Result<Assignment, NoMemory>
    ensures { IfOk result (λ bits. bits ≡ map as_true values.now) }
{
    let mut bits = Items::new(alloc);
    for value in values {
        bits.push(matches!(value, Some(true)))?;
    }
    Ok(bits)
}

fn add_step(log: &mut Log, id: u64, lits: Vec<Lit>, hints: Vec<i64>) -> Result<(), NoMemory>
    ensures { OnOk result (log.new ≡ log.old ++ Add id lits.items hints.items ∷ []) }
{
    log.push(Step::Add {
        id,
        lits: Items::of(lits),
        hints: Items::of(hints),
    })
}

/// The first model in the order of the leaves, 0 before 1; or a log that refutes the formula, by at most `budget` learned
/// clauses and the empty one; or the learned log of `budget` clauses. The ids of a log go on from the formula's. A learned clause
/// has literals of leaves alone, each a decision that a conflict rests on; the search goes on from the second greatest of them. A
/// clause is looked at only where one of the two literals that it is watched at becomes false.
pub fn solve(
    alloc: Global,
    formula: &Formula,
    leaves: u32,
    budget: u32,
) -> Result<Outcome, NoMemory>
    requires fit { All (Fits (formula.now.variables + 1)) formula.now.clauses }
    requires leaves { leaves ≤ formula.now.variables }
    requires small { formula.now.variables < 2 ^ 30 }
    requires few { length formula.now.clauses < 2 ^ 60 }
    requires decided { AreDecided formula.now.clauses formula.now.variables leaves }
    ensures { IfOk result (λ outcome. OutcomeSays formula.now.clauses formula.now.variables leaves budget outcome) }
{
    let size = formula.variables as usize + 1;
    let mut clauses = gathered(alloc, formula.clauses.as_slice())?;
    let mut trail = Trail::new(alloc, size)?;
    let mut watches = Watches::new(alloc, clauses.len(), 2 * size)?;
    let mut pending = Pending::new(alloc, size)?;
    let mut log = Items::new(alloc);
    if let Some(place) = begin(&clauses, leaves, &mut trail, &mut watches)? {
        let (lits, hints) = analyse(alloc, &clauses, leaves, &trail, &mut pending, place)?;
        add_step(&mut log, clauses.len() as u64 + 1, lits, hints)?;
        return Ok(Outcome::Unsat(log));
    }
    let mut learned: u32 = 0;
    loop {
        match search(&clauses, leaves, &mut trail, &mut watches)? {
            Round::Full => return Ok(Outcome::Sat(assignment(alloc, &trail.values[1..])?)),
            Round::Conflict(place) => {
                let (lits, hints) = analyse(alloc, &clauses, leaves, &trail, &mut pending, place)?;
                let id = clauses.len() as u64 + 1;
                if lits.is_empty() {
                    add_step(&mut log, id, lits, hints)?;
                    return Ok(Outcome::Unsat(log));
                }
                if learned == budget {
                    return Ok(Outcome::Spent(log));
                }
                learn(
                    &mut clauses,
                    leaves,
                    &mut trail,
                    &mut watches,
                    lits.as_slice(),
                )?;
                add_step(&mut log, id, lits, hints)?;
                learned += 1;
            }
        }
    }
}
