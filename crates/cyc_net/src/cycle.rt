use crate::net::Net;
use crate::node::NodeId;
use bits_core::{Duplicate, Items, NoMemory};
use std::alloc::Global;

/// A bit, by its number, and the leaf that stands for it.
#[derive(Clone, Copy, Debug, PartialEq, Eq)]
pub struct BitLeaf {
    pub bit: u32,
    pub leaf: u32,
}

/// A bit, by its number, and the node that has its value.
#[derive(Clone, Copy, Debug, PartialEq, Eq)]
pub struct BitNode {
    pub bit: u32,
    pub node: NodeId,
}

/// Bits with leaves, in ascending order of bits.
pub type LeafList = Items<BitLeaf>;

/// Bits with nodes, in ascending order of bits.
pub type NodeList = Items<BitNode>;

/// The net of one clock cycle: leaves for the input bits and for the stored bits, nodes for the bits of the cycle, and a node for the
/// next value of each stored bit.
#[derive(Debug, Drop)]
pub struct CycleNet {
    pub net: Net,
    pub inputs: LeafList,
    pub states: LeafList,
    pub bits: NodeList,
    pub nexts: NodeList,
}

impl Duplicate for BitLeaf {
    fn copy(&self, alloc: Global) -> Result<BitLeaf, NoMemory> {
        Ok(*self)
    }
}

impl Duplicate for BitNode {
    fn copy(&self, alloc: Global) -> Result<BitNode, NoMemory> {
        Ok(*self)
    }
}
