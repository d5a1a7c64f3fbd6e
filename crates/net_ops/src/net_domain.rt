ghost use Rattle.std.specs.Prelude.{◌≡◌, length};
ghost use Rattle.std.proofs.lemmas.List.{length-map};
ghost use Rattle.cyc_net.specs.Nets.{value, has_leaf};
ghost use Rattle.value_domain.specs.Meaning.{Meaning};
ghost use Rattle.net_ops.specs.Words.{AreNodes, read};

use crate::operators::{binary_nodes, unary_nodes};
use crate::places::{constant_nodes, copy_nodes, extend_nodes, place_nodes, select_nodes};
use crate::words::{Reduction, choose_all, reduce};
use bits_core::{Bits, Items, NoMemory};
use cyc_net::{Net, NodeId};
use design_core::{Binary, Unary};
use std::alloc::Global;
use value_domain::Domain;

/// The domain of words of nodes, the lowest bit first: under a valuation of the net's leaves a word stands for the bits of its nodes.
/// The leaves of the net are the variables of the domain, and no operation makes one more.
#[derive(Drop)]
pub struct NetDomain {
    pub net: Net,
    alloc: Global,
}

impl NetDomain {
    /// The domain over a net. Takes no memory.
    pub fn new(alloc: Global, net: Net) -> NetDomain
        ensures { result.net ≡ net }
    {
        NetDomain { net, alloc }
    }
}

impl Domain for NetDomain {
    type Value = Items<NodeId>;

    ghost meaning = { record { width = length; is_value = λ domain x. AreNodes domain.net x; reads = λ domain v x. read domain.net v x; base = λ domain i. has_leaf domain.net i } };

    ghost as_wide = { λ domain v x h. length-map x (value domain.net v) };

    /// The nodes 0 and 1. Makes no node.
    fn constant(&mut self, bits: &Bits) -> Result<Items<NodeId>, NoMemory> {
        constant_nodes(self.alloc, &self.net, bits)
    }

    /// As many nodes as `unary_nodes` says.
    fn unary(&mut self, op: Unary, a: &Items<NodeId>) -> Result<Items<NodeId>, NoMemory> {
        unary_nodes(self.alloc, &mut self.net, op, a.as_slice())
    }

    /// As many nodes as `binary_nodes` says.
    fn binary(
        &mut self,
        op: Binary,
        a: &Items<NodeId>,
        b: &Items<NodeId>,
        signed: bool,
    ) -> Result<Items<NodeId>, NoMemory> {
        binary_nodes(
            self.alloc,
            &mut self.net,
            op,
            a.as_slice(),
            b.as_slice(),
            signed,
        )
    }

    /// One node a bit of the test, and one a bit of the value.
    fn mux(
        &mut self,
        c: &Items<NodeId>,
        a: &Items<NodeId>,
        b: &Items<NodeId>,
    ) -> Result<Items<NodeId>, NoMemory> {
        let test = reduce(&mut self.net, Reduction::Or, c.as_slice())?;
        choose_all(self.alloc, &mut self.net, test, a.as_slice(), b.as_slice())
    }

    /// Nodes that are there. Makes no node.
    fn extend(
        &mut self,
        a: &Items<NodeId>,
        len: u32,
        signed: bool,
    ) -> Result<Items<NodeId>, NoMemory> {
        extend_nodes(self.alloc, &self.net, a.as_slice(), len as usize, signed)
    }

    /// Nodes that are there. Makes no node.
    fn select(&mut self, a: &Items<NodeId>, low: i64, len: u32) -> Result<Items<NodeId>, NoMemory> {
        select_nodes(self.alloc, &self.net, a.as_slice(), low, len as usize)
    }

    /// Nodes that are there. Makes no node.
    fn place(
        &mut self,
        a: &Items<NodeId>,
        part: &Items<NodeId>,
        low: i64,
    ) -> Result<Items<NodeId>, NoMemory> {
        place_nodes(self.alloc, &self.net, a.as_slice(), part.as_slice(), low)
    }

    /// Makes no node.
    fn copy(&mut self, a: &Items<NodeId>) -> Result<Items<NodeId>, NoMemory> {
        copy_nodes(self.alloc, a.as_slice())
    }
}
