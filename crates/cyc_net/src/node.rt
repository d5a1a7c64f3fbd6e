/// The number of a node in its net.
pub type NodeId = u32;

/// A bit: a constant, a leaf by its number, or a gate over nodes before it. `Mux(c, a, b)` is a where c is 1, else b.
#[derive(Clone, Copy, Debug, PartialEq, Eq)]
pub enum Node {
    Const(bool),
    Leaf(u32),
    And(NodeId, NodeId),
    Xor(NodeId, NodeId),
    Mux(NodeId, NodeId, NodeId),
}
