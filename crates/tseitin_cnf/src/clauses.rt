ghost use Rattle.std.specs.Prelude.{◌≡◌, ◌++◌, ◌∷◌, [], ◌<◌, ◌≤◌, ◌^◌, true, false, OnOk};
ghost use Rattle.cnf_core.specs.Lit.{literal_of};
ghost use Rattle.cnf_core.specs.Gates.{gate_clauses};
ghost use Rattle.tseitin_cnf.specs.Encoding.{InputsInRange};

use bits_core::{Items, NoMemory};
use cnf_core::{ClauseList, Gate, Lit};
use std::alloc::Global;

fn push_two(
    alloc: Global,
    clauses: &mut ClauseList,
    first: Lit,
    second: Lit,
) -> Result<(), NoMemory>
    ensures { OnOk result (clauses.new ≡ clauses.old ++ (first ∷ second ∷ []) ∷ []) }
{
    let mut clause = Items::new(alloc);
    clause.push(first)?;
    clause.push(second)?;
    clauses.push(clause)
}

fn push_three(
    alloc: Global,
    clauses: &mut ClauseList,
    first: Lit,
    second: Lit,
    third: Lit,
) -> Result<(), NoMemory>
    ensures { OnOk result (clauses.new ≡ clauses.old ++ (first ∷ second ∷ third ∷ []) ∷ []) }
{
    let mut clause = Items::new(alloc);
    clause.push(first)?;
    clause.push(second)?;
    clause.push(third)?;
    clauses.push(clause)
}

/// Puts a clause of one positive or negative literal at the end.
pub fn push_one(
    alloc: Global,
    clauses: &mut ClauseList,
    variable: u32,
    positive: bool,
) -> Result<(), NoMemory>
    requires above { 1 ≤ variable }
    requires below { variable < 2 ^ 30 }
    ensures { OnOk result (clauses.new ≡ clauses.old ++ (literal_of variable positive ∷ []) ∷ []) }
{
    let mut clause = Items::new(alloc);
    clause.push(Lit::of(variable, positive))?;
    clauses.push(clause)
}

fn push_and(alloc: Global, clauses: &mut ClauseList, v: u32, a: u32, b: u32) -> Result<(), NoMemory>
    requires v_in { (1 ≤ v) × (v < 2 ^ 30) }
    requires a_in { (1 ≤ a) × (a < 2 ^ 30) }
    requires b_in { (1 ≤ b) × (b < 2 ^ 30) }
    ensures { OnOk result (clauses.new ≡ clauses.old ++ gate_clauses v (Gate.And a b)) }
{
    push_two(alloc, clauses, Lit::of(v, false), Lit::of(a, true))?;
    push_two(alloc, clauses, Lit::of(v, false), Lit::of(b, true))?;
    push_three(
        alloc,
        clauses,
        Lit::of(v, true),
        Lit::of(a, false),
        Lit::of(b, false),
    )
}

fn push_xor(alloc: Global, clauses: &mut ClauseList, v: u32, a: u32, b: u32) -> Result<(), NoMemory>
    requires v_in { (1 ≤ v) × (v < 2 ^ 30) }
    requires a_in { (1 ≤ a) × (a < 2 ^ 30) }
    requires b_in { (1 ≤ b) × (b < 2 ^ 30) }
    ensures { OnOk result (clauses.new ≡ clauses.old ++ gate_clauses v (Gate.Xor a b)) }
{
    push_three(
        alloc,
        clauses,
        Lit::of(v, false),
        Lit::of(a, true),
        Lit::of(b, true),
    )?;
    push_three(
        alloc,
        clauses,
        Lit::of(v, false),
        Lit::of(a, false),
        Lit::of(b, false),
    )?;
    push_three(
        alloc,
        clauses,
        Lit::of(v, true),
        Lit::of(a, false),
        Lit::of(b, true),
    )?;
    push_three(
        alloc,
        clauses,
        Lit::of(v, true),
        Lit::of(a, true),
        Lit::of(b, false),
    )
}

fn push_mux(
    alloc: Global,
    clauses: &mut ClauseList,
    v: u32,
    c: u32,
    a: u32,
    b: u32,
) -> Result<(), NoMemory>
    requires v_in { (1 ≤ v) × (v < 2 ^ 30) }
    requires c_in { (1 ≤ c) × (c < 2 ^ 30) }
    requires a_in { (1 ≤ a) × (a < 2 ^ 30) }
    requires b_in { (1 ≤ b) × (b < 2 ^ 30) }
    ensures { OnOk result (clauses.new ≡ clauses.old ++ gate_clauses v (Gate.Mux c a b)) }
{
    push_three(
        alloc,
        clauses,
        Lit::of(v, false),
        Lit::of(c, false),
        Lit::of(a, true),
    )?;
    push_three(
        alloc,
        clauses,
        Lit::of(v, true),
        Lit::of(c, false),
        Lit::of(a, false),
    )?;
    push_three(
        alloc,
        clauses,
        Lit::of(v, false),
        Lit::of(c, true),
        Lit::of(b, true),
    )?;
    push_three(
        alloc,
        clauses,
        Lit::of(v, true),
        Lit::of(c, true),
        Lit::of(b, false),
    )
}

/// Puts the clauses at the end that say that a variable has the gate's value.
pub fn push_gate(
    alloc: Global,
    clauses: &mut ClauseList,
    v: u32,
    gate: Gate,
) -> Result<(), NoMemory>
    requires v_in { (1 ≤ v) × (v < 2 ^ 30) }
    requires inputs { InputsInRange gate }
    ensures { OnOk result (clauses.new ≡ clauses.old ++ gate_clauses v gate) }
{
    match gate {
        Gate::Const(value) => push_one(alloc, clauses, v, value),
        Gate::And(a, b) => push_and(alloc, clauses, v, a, b),
        Gate::Xor(a, b) => push_xor(alloc, clauses, v, a, b),
        Gate::Mux(c, a, b) => push_mux(alloc, clauses, v, c, a, b),
    }
}
