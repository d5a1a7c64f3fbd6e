ghost use Rattle.std.specs.Prelude.{◌≡◌, ℕ, ◌+◌, ◌<◌, ◌≤◌, ◌^◌, [], Bool, true, length, All, IfOk, OnOk};
ghost use Rattle.cnf_core.specs.Closed.{AreDecided};
ghost use Rattle.cnf_core.specs.DimacsText.{IsInText};
ghost use Rattle.cnf_core.specs.Lit.{variable_of};
ghost use Rattle.cyc_net.specs.Nets.{LeavesBelow, LeafBelow, bit_at};
ghost use Rattle.tseitin_cnf.specs.Encoding.{IsEncoded, IsReadSet, IsReadClosed, Walk, walk, begin, with_node};
ghost use Rattle.tseitin_cnf.specs.Parts.{Ascend, nodes_in, part_of};
ghost use Rattle.tseitin_cnf.specs.Tracks.{Tracks, Good, InputsNamed, numbers};

use crate::clauses::{push_gate, push_one};
use crate::marking::mark_read;
use crate::parts::node_in;
use bits_core::{Items, NoMemory};
use cnf_core::{ClauseList, Formula, Gate};
use cyc_net::{Net, Node, NodeId};
use std::alloc::Global;

/// The formula of a goal, and how many of its variables are leaves.
#[derive(Debug, Drop)]
pub struct Encoded {
    pub formula: Formula,
    pub leaves: u32,
}

/// Gives a node its variable: that of its leaf, or the one after the last, with the clauses of its gate. Answers the last variable.
fn add_node(
    alloc: Global,
    at: NodeId,
    node: Node,
    variables: &mut [u32],
    last: u32,
    clauses: &mut ClauseList,
) -> Result<u32, NoMemory>
    requires within { at < length variables.old }
    requires inputs { InputsNamed variables.old node }
    requires leaf { LeafBelow (2 ^ 27) node }
    requires room { last + 1 < 2 ^ 30 }
    ensures { IfOk result (λ now. (leaves : ℕ) (s : Walk) → Tracks leaves s variables.old last clauses.old → Tracks leaves (with_node s at node) variables.new now clauses.new) }
{
    let gate = match node {
        Node::Leaf(number) => {
            variables[at as usize] = number + 1;
            return Ok(last);
        }
        Node::Const(value) => Gate::Const(value),
        Node::And(a, b) => Gate::And(variables[a as usize], variables[b as usize]),
        Node::Xor(a, b) => Gate::Xor(variables[a as usize], variables[b as usize]),
        Node::Mux(c, a, b) => Gate::Mux(
            variables[c as usize],
            variables[a as usize],
            variables[b as usize],
        ),
    };
    push_gate(alloc, clauses, last + 1, gate)?;
    variables[at as usize] = last + 1;
    Ok(last + 1)
}

/// Gives each marked node of the net, or of a part of it, its variable, in the order of their numbers. Answers the last variable.
fn add_nodes(
    alloc: Global,
    net: &Net,
    whole: bool,
    part: &[u32],
    marks: &[bool],
    variables: &mut [u32],
    leaves: u32,
    clauses: &mut ClauseList,
) -> Result<u32, NoMemory>
    requires ascend { Ascend 0 part.now }
    requires short { length part.now ≤ 2 ^ 27 }
    requires size { length marks.now ≡ length net.now }
    requires same { length variables.old ≡ length net.now }
    requires none { (m : ℕ) → numbers variables.old m ≡ 0 }
    requires empty { clauses.old ≡ [] }
    requires few { leaves ≤ 2 ^ 27 }
    requires leaves { LeavesBelow leaves (nodes_in whole part.now net.now) }
    requires read { IsReadClosed (nodes_in whole part.now net.now) (bit_at marks.now) }
    ensures tracks { IfOk result (λ last. Tracks leaves (walk (bit_at marks.now) 0 (begin leaves) (nodes_in whole part.now net.now)) variables.new last clauses.new) }
    ensures good { OnOk result (Good (nodes_in whole part.now net.now) (bit_at marks.now) leaves (length net.now)
        (walk (bit_at marks.now) 0 (begin leaves) (nodes_in whole part.now net.now))) }
{
    let mut last = leaves;
    for at in 0..net.len() {
        if marks[at] {
            let node = node_in(whole, part, net.node(at as NodeId));
            last = add_node(alloc, at as NodeId, node, variables, last, clauses)?;
        }
    }
    Ok(last)
}

/// The formula of a goal of a net, or of a part of it, where the nodes that it reads are marked, and no node has a variable.
fn goal_formula(
    alloc: Global,
    net: &Net,
    whole: bool,
    part: &[u32],
    marks: &[bool],
    variables: &mut [u32],
    leaves: u32,
    goal: NodeId,
) -> Result<Formula, NoMemory>
    requires ascend { Ascend 0 part.now }
    requires short { length part.now ≤ 2 ^ 27 }
    requires size { length marks.now ≡ length net.now }
    requires same { length variables.old ≡ length net.now }
    requires none { (m : ℕ) → numbers variables.old m ≡ 0 }
    requires goal { goal < length net.now }
    requires few { leaves ≤ 2 ^ 27 }
    requires leaves { LeavesBelow leaves (nodes_in whole part.now net.now) }
    requires read { IsReadSet net.now goal (bit_at marks.now) }
    ensures { IfOk result (λ formula. IsEncoded (nodes_in whole part.now net.now) leaves goal (record { formula = formula; leaves = leaves })) }
{
    prove!(net.len() <= 1 << 27);
    let mut clauses = Items::new(alloc);
    let last = add_nodes(
        alloc,
        net,
        whole,
        part,
        marks,
        variables,
        leaves,
        &mut clauses,
    )?;
    push_one(alloc, &mut clauses, variables[goal as usize], true)?;
    Ok(Formula {
        variables: last,
        clauses,
    })
}

/// The gate formula of a node: leaf i is the variable i + 1; behind the leaves come gates, one for each node in the cone of the goal that is no leaf,
/// by ascending number; a last clause says the goal. Linear in the net for its marks, and else in the
/// nodes that the goal reads.
pub fn encode(alloc: Global, net: &Net, leaves: u32, goal: NodeId) -> Result<Encoded, NoMemory>
    requires goal { goal < length net.now }
    requires few { leaves ≤ 2 ^ 27 }
    requires leaves { LeavesBelow leaves net.now }
    ensures encoded { IfOk result (λ encoded. IsEncoded net.now leaves goal encoded) }
    ensures fit { IfOk result (λ encoded. All (All (λ lit. variable_of lit < encoded.formula.variables + 1)) encoded.formula.clauses) }
    ensures leaves { IfOk result (λ encoded. encoded.leaves ≤ encoded.formula.variables) }
    ensures small { IfOk result (λ encoded. encoded.formula.variables < 2 ^ 30) }
    ensures few { IfOk result (λ encoded. length encoded.formula.clauses < 2 ^ 60) }
    ensures text { IfOk result (λ encoded. IsInText encoded.formula) }
    ensures decided { IfOk result (λ encoded. AreDecided encoded.formula.clauses encoded.formula.variables encoded.leaves) }
{
    let marks = mark_read(alloc, net, goal)?;
    let mut variables = vec![in alloc; 0u32; net.len()]?;
    let formula = goal_formula(
        alloc,
        net,
        true,
        &[],
        marks.as_slice(),
        variables.as_mut_slice(),
        leaves,
        goal,
    )?;
    Ok(Encoded { formula, leaves })
}

/// The gate formula of a node over some leaves of its net, which ascend: the leaf at place i is the variable i + 1, and any other leaf is 0. So the nodes of
/// several questions stand in one net, and each question has the variables of its own leaves. Costs what `encode` costs, and a search among the
/// leaves for each leaf that the goal reads.
pub fn encode_part(
    alloc: Global,
    net: &Net,
    leaves: &[u32],
    goal: NodeId,
) -> Result<Encoded, NoMemory>
    requires goal { goal < length net.now }
    requires few { length leaves.now ≤ 2 ^ 27 }
    requires ascend { Ascend 0 leaves.now }
    ensures encoded { IfOk result (λ encoded. IsEncoded (part_of leaves.now net.now) (length leaves.now) goal encoded) }
    ensures fit { IfOk result (λ encoded. All (All (λ lit. variable_of lit < encoded.formula.variables + 1)) encoded.formula.clauses) }
    ensures leaves { IfOk result (λ encoded. encoded.leaves ≤ encoded.formula.variables) }
    ensures small { IfOk result (λ encoded. encoded.formula.variables < 2 ^ 30) }
    ensures few { IfOk result (λ encoded. length encoded.formula.clauses < 2 ^ 60) }
    ensures text { IfOk result (λ encoded. IsInText encoded.formula) }
    ensures decided { IfOk result (λ encoded. AreDecided encoded.formula.clauses encoded.formula.variables encoded.leaves) }
{
    let marks = mark_read(alloc, net, goal)?;
    let mut variables = vec![in alloc; 0u32; net.len()]?;
    let count = leaves.len() as u32;
    let formula = goal_formula(
        alloc,
        net,
        false,
        leaves,
        marks.as_slice(),
        variables.as_mut_slice(),
        count,
        goal,
    )?;
    Ok(Encoded {
        formula,
        leaves: count,
    })
}
