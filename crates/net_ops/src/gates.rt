ghost use Rattle.std.specs.Prelude.{◌≡◌, ◌<◌, ◌&&◌, ◌||◌, not, length, IfOk, if◌then◌else◌};
ghost use Rattle.bits_core.specs.Places.{exclusive_or};
ghost use Rattle.cyc_net.specs.Nets.{value, Gated};
ghost use Rattle.net_ops.specs.Words.{IsBit, gate_of};

use bits_core::NoMemory;
use cyc_net::{Net, Node, NodeId};

/// Which gate joins two nodes.
#[derive(Clone, Copy, Debug, PartialEq, Eq)]
pub enum Gate {
    And,
    Or,
    Xor,
    /// 1 where the two are the same.
    Xnor,
}

/// 1 where both are: one node.
#[tactic(auto, using(crate::proofs::GateLaws::made_and))]
pub fn and_gate(net: &mut Net, a: NodeId, b: NodeId) -> Result<NodeId, NoMemory>
    requires first { a < length net.old }
    requires second { b < length net.old }
    ensures made { IfOk result (λ r. IsBit net.new r (λ v. value net.old v a && value net.old v b)) }
    ensures kept { Gated net.old net.new }
{
    net.push(Node::And(a, b))
}

/// 1 where one or both are: one node.
#[tactic(auto, using(crate::proofs::GateLaws::made_or))]
pub fn or_gate(net: &mut Net, a: NodeId, b: NodeId) -> Result<NodeId, NoMemory>
    requires first { a < length net.old }
    requires second { b < length net.old }
    ensures made { IfOk result (λ r. IsBit net.new r (λ v. value net.old v a || value net.old v b)) }
    ensures kept { Gated net.old net.new }
{
    net.push(Node::Mux(a, a, b))
}

/// 1 where exactly one is: one node.
#[tactic(auto, using(crate::proofs::GateLaws::made_xor))]
pub fn xor_gate(net: &mut Net, a: NodeId, b: NodeId) -> Result<NodeId, NoMemory>
    requires first { a < length net.old }
    requires second { b < length net.old }
    ensures made { IfOk result (λ r. IsBit net.new r (λ v. exclusive_or (value net.old v a) (value net.old v b))) }
    ensures kept { Gated net.old net.new }
{
    net.push(Node::Xor(a, b))
}

/// 1 where the other is 0: one node.
pub fn not_gate(net: &mut Net, a: NodeId) -> Result<NodeId, NoMemory>
    requires { a < length net.old }
    ensures made { IfOk result (λ r. IsBit net.new r (λ v. not (value net.old v a))) }
    ensures kept { Gated net.old net.new }
{
    let one = net.one();
    xor_gate(net, one, a)
}

/// 1 where the two are the same: two nodes.
pub fn xnor_gate(net: &mut Net, a: NodeId, b: NodeId) -> Result<NodeId, NoMemory>
    requires first { a < length net.old }
    requires second { b < length net.old }
    ensures made { IfOk result (λ r. IsBit net.new r (λ v. not (exclusive_or (value net.old v a) (value net.old v b)))) }
    ensures kept { Gated net.old net.new }
{
    let unlike = xor_gate(net, a, b)?;
    not_gate(net, unlike)
}

/// `a` where the test is 1, else `b`: one node.
#[tactic(auto, using(crate::proofs::GateLaws::made_mux))]
pub fn mux_gate(net: &mut Net, test: NodeId, a: NodeId, b: NodeId) -> Result<NodeId, NoMemory>
    requires test { test < length net.old }
    requires first { a < length net.old }
    requires second { b < length net.old }
    ensures made { IfOk result (λ r. IsBit net.new r (λ v. if value net.old v test then value net.old v a else value net.old v b)) }
    ensures kept { Gated net.old net.new }
{
    net.push(Node::Mux(test, a, b))
}

/// The gate of a kind: one node, or two where it is 1 for the same.
pub fn join_gate(net: &mut Net, kind: Gate, a: NodeId, b: NodeId) -> Result<NodeId, NoMemory>
    requires first { a < length net.old }
    requires second { b < length net.old }
    ensures made { IfOk result (λ r. IsBit net.new r (λ v. gate_of kind (value net.old v a) (value net.old v b))) }
    ensures kept { Gated net.old net.new }
{
    match kind {
        Gate::And => and_gate(net, a, b),
        Gate::Or => or_gate(net, a, b),
        Gate::Xor => xor_gate(net, a, b),
        Gate::Xnor => xnor_gate(net, a, b),
    }
}
