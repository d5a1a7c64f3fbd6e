ghost use Rattle.cyc_net.specs.Nets.{LeavesDecide, NodesAreGates, WorthIsLeaf};

/// A law: the value of a node is its gate's over the values of the nodes that it reads.
pub fn nodes_are_gates()
    ensures { NodesAreGates }
{}

/// A law: the leaves of a net alone decide the values of its nodes.
pub fn leaves_decide()
    ensures { LeavesDecide }
{}

/// A law: a variable whose value some node has under each valuation is a leaf of the net.
pub fn worth_is_leaf()
    ensures { WorthIsLeaf }
{}
