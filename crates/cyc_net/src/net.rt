ghost use Rattle.std.specs.Prelude.{◌≡◌, ℕ, ◌<◌, ◌≤◌, ◌^◌, [], ◌∷◌, Bool, false, true, length, slice_index_or, IfOk, OnErr};
ghost use Rattle.cyc_net.specs.Nets.{value, run, bit_at, gate_value, AllRead, ReadsBelow, LeavesBelow, LeafBelow, Extends, Gated, IsPushed, has_leaf, is_leaf};

use crate::node::{Node, NodeId};
use bits_core::NoMemory;
use std::alloc::Global;
use std::marker::Model;

/// How many nodes a net has room for: 2^27.
const ROOM: usize = 134_217_728;

/// A net of bit nodes, seen as their list: node 0 is the constant 0, node 1 the constant 1, and each node reads lower numbers.
#[derive(Debug, Drop)]
pub struct Net {
    nodes: Vec<Node>,
}

impl Model for Net {
    ghost use Rattle.std.specs.Prelude.{List};
    ghost use Rattle.cyc_net.specs.declared.node.Node.{Node};

    ghost Value = { List Node };

    ghost use Rattle.cyc_net.specs.Nets.{IsNet};

    ghost view = { λ net. net.nodes.items };

    ghost invariant = { λ net. IsNet net.nodes.items };
}

impl Net {
    /// The net of the two constants.
    pub fn new(alloc: Global) -> Result<Net, NoMemory>
        ensures { IfOk result (λ net. net ≡ Node.Const false ∷ Node.Const true ∷ []) }
    {
        let mut nodes = Vec::new(alloc);
        nodes.push(Node::Const(false))?;
        nodes.push(Node::Const(true))?;
        Ok(Net { nodes })
    }

    pub fn len(&self) -> usize
        ensures value { result ≡ length self.now }
        ensures some { 2 ≤ result }
        ensures most { result ≤ 2 ^ 27 }
        ensures reads { AllRead 0 self.now }
    {
        self.nodes.len()
    }

    /// The node with a number.
    pub fn node(&self, at: NodeId) -> Node
        requires { at < length self.now }
        ensures value { result ≡ slice_index_or self.now at result }
        ensures reads { ReadsBelow at result }
    {
        self.nodes[at as usize]
    }

    /// The node that is 0.
    pub fn zero(&self) -> NodeId
        ensures within { result < length self.now }
        ensures worth { (v : ℕ → Bool) → value self.now v result ≡ false }
    {
        let _nodes = &self.nodes;
        0
    }

    /// The node that is 1.
    pub fn one(&self) -> NodeId
        ensures within { result < length self.now }
        ensures worth { (v : ℕ → Bool) → value self.now v result ≡ true }
    {
        let _nodes = &self.nodes;
        1
    }

    /// A node that has the gate's value; it may have been there before. The nodes that were there keep their values. Where the net has no
    /// room or memory for one more node, it stays as it was. Amortized constant time.
    pub fn push(&mut self, node: Node) -> Result<NodeId, NoMemory>
        requires { ReadsBelow (length self.old) node }
        ensures made { IfOk result (λ at. IsPushed self.old node self.new at) }
        ensures kept { Extends self.old self.new }
        ensures gated { ((i : ℕ) → is_leaf i node ≡ false) → Gated self.old self.new }
        ensures err { OnErr result (self.new ≡ self.old) }
    {
        let at = self.nodes.len();
        if at >= ROOM {
            return Err(NoMemory);
        }
        self.nodes.push(node)?;
        Ok(at as NodeId)
    }

    /// Whether the number of each leaf is below a count. Linear in the net; takes no memory.
    pub fn leaves_below(&self, count: usize) -> bool
        ensures below { result ≡ true → LeavesBelow count self.now }
        ensures above { result ≡ false → LeavesBelow count self.now → ⊥ }
    {
        let nodes = self.nodes.as_slice();
        for at in 0..nodes.len() {
            if !leaf_below(nodes[at], count) {
                return false;
            }
        }
        true
    }

    /// The value of each node, where `leaves` has a value for each leaf. Linear in the net; takes no memory.
    pub fn eval_into(&self, leaves: &[bool], out: &mut [bool])
        requires leaves { LeavesBelow (length leaves.now) self.now }
        requires out { length out.old ≡ length self.now }
        ensures { out.new ≡ run (bit_at leaves.now) [] self.now }
    {
        let nodes = self.nodes.as_slice();
        for at in 0..nodes.len() {
            let value = gate(nodes[at], leaves, out);
            out[at] = value;
        }
    }
}

fn leaf_below(node: Node, count: usize) -> bool
    ensures below { result ≡ true → LeafBelow count node }
    ensures above { result ≡ false → LeafBelow count node → ⊥ }
{
    match node {
        Node::Leaf(number) => (number as usize) < count,
        _ => true,
    }
}

/// The value of a gate over the values of the nodes that it reads.
fn gate(node: Node, leaves: &[bool], values: &[bool]) -> bool
    requires leaf { LeafBelow (length leaves.now) node }
    requires reads { ReadsBelow (length values.now) node }
    ensures { result ≡ gate_value (bit_at leaves.now) (bit_at values.now) node }
{
    match node {
        Node::Const(value) => value,
        Node::Leaf(number) => leaves[number as usize],
        Node::And(a, b) => values[a as usize] && values[b as usize],
        Node::Xor(a, b) => values[a as usize] != values[b as usize],
        Node::Mux(c, a, b) => {
            if values[c as usize] {
                values[a as usize]
            } else {
                values[b as usize]
            }
        }
    }
}
