ghost use Rattle.std.specs.Prelude.{◌≡◌, ◌++◌, All, IfOk, OnOk};
ghost use Rattle.std.specs.List.{flat_map};
ghost use Rattle.std.specs.List.Sorted.{IsStrictlyIncreasing};
ghost use Rattle.lrat_checker.specs.Index.{Fits, StepFits, clause_variables, step_variables};
ghost use Rattle.lrat_checker.specs.Verdict.{all_entries, IsFresh};

use crate::index::Entry;
use crate::stamps::Mark;
use bits_core::NoMemory;
use cnf_core::{Clause, Formula, Lit, Log, Step};
use std::alloc::Global;

/// What a check writes on, taken before it: the variables that occur, a mark for each, and where each clause stands.
#[derive(Drop)]
pub struct Marks {
    pub(crate) variables: Vec<u32>,
    pub(crate) values: Vec<Mark>,
    pub(crate) entries: Vec<Entry>,
}

fn push_variables(variables: &mut Vec<u32>, clause: &[Lit]) -> Result<(), NoMemory>
    ensures { OnOk result (variables.new.items ≡ variables.old.items ++ clause_variables clause.now) }
{
    for lit in clause {
        variables.push(lit.variable())?;
    }
    Ok(())
}

fn push_of_formula(variables: &mut Vec<u32>, formula: &[Clause]) -> Result<(), NoMemory>
    ensures { OnOk result (variables.new.items ≡ variables.old.items ++ flat_map clause_variables formula.now) }
{
    for clause in formula {
        push_variables(variables, clause.as_slice())?;
    }
    Ok(())
}

fn push_of_step(variables: &mut Vec<u32>, step: &Step) -> Result<(), NoMemory>
    ensures { OnOk result (variables.new.items ≡ variables.old.items ++ step_variables step.now) }
{
    match step {
        Step::Add { lits, .. } => push_variables(variables, lits.as_slice()),
        Step::Delete { .. } => Ok(()),
    }
}

fn push_of_log(variables: &mut Vec<u32>, log: &[Step]) -> Result<(), NoMemory>
    ensures { OnOk result (variables.new.items ≡ variables.old.items ++ flat_map step_variables log.now) }
{
    for step in log {
        push_of_step(variables, step)?;
    }
    Ok(())
}

/// The variables that occur, each once, in ascending order. It costs a sort of the literals.
fn variables_of(alloc: Global, formula: &[Clause], log: &[Step]) -> Result<Vec<u32>, NoMemory>
    ensures ascend { IfOk result (λ v. IsStrictlyIncreasing v.items) }
    ensures formula_fits { IfOk result (λ v. All (Fits v.items) formula.now) }
    ensures log_fits { IfOk result (λ v. All (StepFits v.items) log.now) }
{
    let mut variables = Vec::new(alloc);
    push_of_formula(&mut variables, formula)?;
    push_of_log(&mut variables, log)?;
    variables.sort_unstable();
    variables.dedup();
    Ok(variables)
}

fn entries_of(alloc: Global, formula: &[Clause], log: &[Step]) -> Result<Vec<Entry>, NoMemory>
    ensures { IfOk result (λ v. v.items ≡ all_entries formula.now log.now) }
{
    let mut entries = Vec::new(alloc);
    for place in 0..formula.len() {
        entries.push(Entry {
            id: place as u64 + 1,
            place,
            live: true,
        })?;
    }
    for k in 0..log.len() {
        if let Step::Add { id, .. } = &log[k] {
            entries.push(Entry {
                id: *id,
                place: formula.len() + k,
                live: true,
            })?;
        }
    }
    Ok(entries)
}

/// The marks for one check of this log. The memory is linear in the texts, however large the numbers of the variables are; the time is that of a sort of the literals.
pub fn make_marks(alloc: Global, formula: &Formula, log: &Log) -> Result<Marks, NoMemory>
    ensures { IfOk result (λ marks. IsFresh formula.now.clauses log.now marks) }
{
    let variables = variables_of(alloc, formula.clauses.as_slice(), log.as_slice())?;
    let none = Mark {
        stamp: 0,
        value: false,
    };
    let values = vec![in alloc; none; variables.len()]?;
    let entries = entries_of(alloc, formula.clauses.as_slice(), log.as_slice())?;
    Ok(Marks {
        variables,
        values,
        entries,
    })
}
