ghost use Rattle.std.specs.Prelude.{◌≡◌, ◌<◌, ◌+◌, ◌^◌, true, All};
ghost use Rattle.sat_core.specs.Sync.{Fits};

use bits_core::{Items, NoMemory};
use case_lines::Cases;
use cnf_core::{Clause, ClauseList, Formula, Lit, Log, Step, push_integer};
use sat_core::{Outcome, solve};
use std::alloc::{AllocError, Global};

/// A budget, a number of variables and clauses.
#[derive(Drop)]
struct Case {
    budget: u32,
    formula: Formula,
}

/// Whether a clause has variables below `room` alone.
fn clause_fits(room: u32, clause: &[Lit]) -> bool
    ensures { result ≡ true → Fits room clause.now }
{
    for lit in clause {
        if lit.variable() >= room {
            return false;
        }
    }
    true
}

fn clauses_fit(room: u32, clauses: &[Clause]) -> bool
    ensures { result ≡ true → All (Fits room) clauses.now }
{
    for clause in clauses {
        if !clause_fits(room, clause.as_slice()) {
            return false;
        }
    }
    true
}

fn push_literals(out: &mut Vec<u8>, lits: &[Lit]) -> Result<(), NoMemory> {
    for lit in lits {
        out.push(b' ')?;
        push_integer(out, i64::from(lit.value()))?;
    }
    out.extend_from_slice(b" 0")?;
    Ok(())
}

fn push_steps(out: &mut Vec<u8>, log: &Log) -> Result<(), NoMemory> {
    for step in log.as_slice() {
        if let Step::Add { lits, .. } = step {
            push_literals(out, lits.as_slice())?;
        }
    }
    Ok(())
}

fn push_values(out: &mut Vec<u8>, values: &[bool]) -> Result<(), NoMemory> {
    for value in values {
        out.push(b' ')?;
        out.push(if *value { b'1' } else { b'0' })?;
    }
    Ok(())
}

fn push_outcome(out: &mut Vec<u8>, outcome: &Outcome) -> Result<(), NoMemory> {
    match outcome {
        Outcome::Sat(values) => {
            out.extend_from_slice(b"SAT")?;
            push_values(out, values.as_slice())
        }
        Outcome::Unsat(log) => {
            out.extend_from_slice(b"UNSAT")?;
            push_steps(out, log)
        }
        Outcome::Spent(log) => {
            out.extend_from_slice(b"SPENT")?;
            push_steps(out, log)
        }
    }
}

/// The clauses of literals with 0 behind each clause.
fn clauses_of(alloc: Global, numbers: &[i32]) -> Result<ClauseList, NoMemory> {
    let mut clauses = Items::new(alloc);
    let mut clause = Items::new(alloc);
    for number in numbers {
        match Lit::new(*number) {
            Some(lit) => clause.push(lit)?,
            None => {
                clauses.push(clause)?;
                clause = Items::new(alloc);
            }
        }
    }
    Ok(clauses)
}

fn numbers_of(alloc: Global, line: &str) -> Result<Vec<i32>, NoMemory> {
    let mut numbers = Vec::new(alloc);
    for word in line.split(' ') {
        if let Ok(number) = word.parse::<i32>() {
            numbers.push(number)?;
        }
    }
    Ok(numbers)
}

fn case_of(alloc: Global, line: &str) -> Result<Option<Case>, NoMemory> {
    let numbers = numbers_of(alloc, line)?;
    let [budget, variables, rest @ ..] = numbers.as_slice() else {
        return Ok(None);
    };
    if *budget < 0 || *variables < 0 {
        return Ok(None);
    }
    let clauses = clauses_of(alloc, rest)?;
    Ok(Some(Case {
        budget: *budget as u32,
        formula: Formula {
            variables: *variables as u32,
            clauses,
        },
    }))
}

/// The solver's answer to a case; none where a literal is not of its variables.
fn solved(alloc: Global, case: &Case) -> Result<Option<Outcome>, NoMemory> {
    let variables = case.formula.variables;
    if variables >= 1 << 30
        || case.formula.clauses.len() >= 1 << 59
        || !clauses_fit(variables + 1, case.formula.clauses.as_slice())
    {
        return Ok(None);
    }
    let outcome = solve(alloc, &case.formula, variables, case.budget)?;
    Ok(Some(outcome))
}

fn answered(alloc: Global, line: &str) -> Result<Vec<u8>, NoMemory> {
    let mut out = Vec::new(alloc);
    let mut outcome = None;
    if let Some(case) = case_of(alloc, line)? {
        outcome = solved(alloc, &case)?;
    }
    match outcome {
        Some(outcome) => push_outcome(&mut out, &outcome)?,
        None => out.push(b'?')?,
    }
    Ok(out)
}

/// Formulas, one a line.
#[derive(Drop)]
pub struct Formulas;

impl Cases for Formulas {
    fn answer(&mut self, alloc: Global, line: &str) -> Result<Option<Vec<u8>>, AllocError> {
        match answered(alloc, line) {
            Ok(out) => Ok(Some(out)),
            Err(NoMemory) => Err(AllocError),
        }
    }
}
