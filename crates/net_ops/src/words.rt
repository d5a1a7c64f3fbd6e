ghost use Rattle.std.specs.Prelude.{◌≡◌, ◌<◌, [], ◌∷◌, length, map, not, IfOk, if◌then◌else◌};
ghost use Rattle.bits_core.specs.Places.{zip_with};
ghost use Rattle.cyc_net.specs.Nets.{value, Gated};
ghost use Rattle.design_core.specs.Operators.{one_bit};
ghost use Rattle.value_domain.specs.Words.{turned};
ghost use Rattle.net_ops.specs.Words.{AreNodes, IsBit, IsWord, folded, gate_of, read, reduction};

use crate::gates::{Gate, join_gate, mux_gate, not_gate};
use bits_core::{Items, NoMemory};
use cyc_net::{Net, NodeId};
use std::alloc::Global;

/// Which gate runs over all bits of a word.
#[derive(Clone, Copy, Debug, PartialEq, Eq)]
pub enum Reduction {
    /// Each bit is 1.
    And,
    /// Some bit is 1.
    Or,
    /// An odd number of bits is 1.
    Xor,
}

/// Two words joined bit by bit: one node a bit, or two where the gate is 1 for the same.
pub fn join_all(
    alloc: Global,
    net: &mut Net,
    kind: Gate,
    a: &[NodeId],
    b: &[NodeId],
) -> Result<Items<NodeId>, NoMemory>
    requires first { AreNodes net.old a.now }
    requires second { AreNodes net.old b.now }
    requires same { length a.now ≡ length b.now }
    ensures made { IfOk result (λ r. IsWord net.new r (length a.now) (λ v. zip_with (gate_of kind) (read net.old v a.now) (read net.old v b.now))) }
    ensures kept { Gated net.old net.new }
{
    let mut out = Items::new(alloc);
    for at in 0..a.len() {
        let made = join_gate(net, kind, a[at], b[at])?;
        out.push(made)?;
    }
    Ok(out)
}

/// A word with each bit inverted: one node a bit.
pub fn invert_all(alloc: Global, net: &mut Net, a: &[NodeId]) -> Result<Items<NodeId>, NoMemory>
    requires { AreNodes net.old a.now }
    ensures made { IfOk result (λ r. IsWord net.new r (length a.now) (λ v. map not (read net.old v a.now))) }
    ensures kept { Gated net.old net.new }
{
    let mut out = Items::new(alloc);
    for at in 0..a.len() {
        let made = not_gate(net, a[at])?;
        out.push(made)?;
    }
    Ok(out)
}

/// The first word where the test is 1, else the second: one node a bit.
pub fn choose_all(
    alloc: Global,
    net: &mut Net,
    test: NodeId,
    a: &[NodeId],
    b: &[NodeId],
) -> Result<Items<NodeId>, NoMemory>
    requires test { test < length net.old }
    requires first { AreNodes net.old a.now }
    requires second { AreNodes net.old b.now }
    requires same { length a.now ≡ length b.now }
    ensures made { IfOk result (λ r. IsWord net.new r (length a.now) (λ v. if value net.old v test then read net.old v a.now else read net.old v b.now)) }
    ensures kept { Gated net.old net.new }
{
    let mut out = Items::new(alloc);
    for at in 0..a.len() {
        let made = mux_gate(net, test, a[at], b[at])?;
        out.push(made)?;
    }
    Ok(out)
}

/// A gate over a node and the bits of a word one after the other: one node a bit, or two where the gate is 1 for the same.
fn fold_all(net: &mut Net, kind: Gate, start: NodeId, a: &[NodeId]) -> Result<NodeId, NoMemory>
    requires start { start < length net.old }
    requires are { AreNodes net.old a.now }
    ensures made { IfOk result (λ r. IsBit net.new r (λ v. folded (gate_of kind) (value net.old v start) (read net.old v a.now))) }
    ensures kept { Gated net.old net.new }
{
    let mut so_far = start;
    for at in 0..a.len() {
        so_far = join_gate(net, kind, so_far, a[at])?;
    }
    Ok(so_far)
}

/// One node a bit of the word.
pub fn reduce(net: &mut Net, kind: Reduction, a: &[NodeId]) -> Result<NodeId, NoMemory>
    requires { AreNodes net.old a.now }
    ensures made { IfOk result (λ r. IsBit net.new r (λ v. reduction kind (read net.old v a.now))) }
    ensures kept { Gated net.old net.new }
{
    let zero = net.zero();
    let one = net.one();
    match kind {
        Reduction::And => fold_all(net, Gate::And, one, a),
        Reduction::Or => fold_all(net, Gate::Or, zero, a),
        Reduction::Xor => fold_all(net, Gate::Xor, zero, a),
    }
}

/// The word of one node.
pub fn alone(alloc: Global, node: NodeId) -> Result<Items<NodeId>, NoMemory>
    ensures { IfOk result (λ r. r ≡ node ∷ []) }
{
    let mut out = Items::new(alloc);
    out.push(node)?;
    Ok(out)
}

/// A bit or its negation as a word: no node, or one.
pub fn truth(
    alloc: Global,
    net: &mut Net,
    node: NodeId,
    positive: bool,
) -> Result<Items<NodeId>, NoMemory>
    requires { node < length net.old }
    ensures made { IfOk result (λ r. IsWord net.new r 1 (λ v. one_bit (turned positive (value net.old v node)))) }
    ensures kept { Gated net.old net.new }
{
    if positive {
        return alone(alloc, node);
    }
    let other = not_gate(net, node)?;
    alone(alloc, other)
}
