ghost use Rattle.std.specs.Prelude.{◌≡◌, ℕ, ◌<◌, ◌≤◌, ◌^◌, Bool, ◌&&◌, List, length, pos, ◌+ℤ◌, ◌-ℤ◌, nat_lt, IfOk, if◌then◌else◌};
ghost use Rattle.bits_core.specs.Places.{bit_at, bit_at_int, by_place, extended, placed, selected, sign_of, written};
ghost use Rattle.cyc_net.specs.Nets.{value};
ghost use Rattle.cyc_net.specs.declared.node.Node.{Node};
ghost use Rattle.net_ops.specs.Words.{AreNodes, IsBit, IsWord, read};

use bits_core::{Bits, Items, NoMemory};
use cyc_net::{Net, NodeId};
use std::alloc::Global;

/// A word by its places, of nodes that are there already.
trait NodeByPlace {
    /// The bit at a place, under a valuation.
    ghost bit: { Self → List Node → (ℕ → Bool) → ℕ → Bool };

    /// That the nodes are those of the net.
    ghost are: { Self → List Node → Type 0 };

    /// The node at a place.
    fn node(&self, net: &Net, at: usize) -> NodeId
        requires near { at < 2 ^ 61 }
        requires are { are self.now net.now }
        ensures { IsBit net.now result (λ v. bit self.now net.now v at) };
}

/// The word of a length that has the node of each place.
fn fill<P: NodeByPlace>(
    alloc: Global,
    net: &Net,
    places: &P,
    len: usize,
) -> Result<Items<NodeId>, NoMemory>
    requires near { len ≤ 2 ^ 61 }
    requires are { P.are places.now net.now }
    ensures { IfOk result (λ r. IsWord net.now r len (λ v. by_place len (P.bit places.now net.now v))) }
{
    let mut out = Items::new(alloc);
    for at in 0..len {
        let node = places.node(net, at);
        out.push(node)?;
    }
    Ok(out)
}

/// The node at a place of a word, the constant 0 past its end.
#[tactic(auto, using(crate::proofs::PlaceLaws::at_place, crate::proofs::PlaceLaws::past_the_end))]
fn node_or_zero(net: &Net, nodes: &[NodeId], at: usize) -> NodeId
    requires { AreNodes net.now nodes.now }
    ensures { IsBit net.now result (λ v. bit_at (read net.now v nodes.now) at) }
{
    if at < nodes.len() {
        nodes[at]
    } else {
        net.zero()
    }
}

/// The highest node of a word where the word has a sign, else the constant 0.
pub fn sign_node(net: &Net, nodes: &[NodeId], by_sign: bool) -> NodeId
    requires { AreNodes net.now nodes.now }
    ensures { IsBit net.now result (λ v. by_sign && sign_of (read net.now v nodes.now)) }
{
    let len = nodes.len();
    if by_sign && len > 0 {
        nodes[len - 1]
    } else {
        net.zero()
    }
}

/// A word brought to another length.
#[derive(Clone, Copy)]
struct Extended<'a> {
    nodes: &'a [NodeId],
    by_sign: bool,
}

impl<'a> NodeByPlace for Extended<'a> {
    ghost bit = { λ it net v k. if nat_lt k (length (read net v it.nodes.now)) then bit_at (read net v it.nodes.now) k else (it.by_sign && sign_of (read net v it.nodes.now)) };

    ghost are = { λ it net. AreNodes net it.nodes.now };

    fn node(&self, net: &Net, at: usize) -> NodeId {
        if at < self.nodes.len() {
            self.nodes[at]
        } else {
            sign_node(net, self.nodes, self.by_sign)
        }
    }
}

/// A word from a place on.
#[derive(Clone, Copy)]
struct Selected<'a> {
    nodes: &'a [NodeId],
    low: i64,
}

impl<'a> NodeByPlace for Selected<'a> {
    ghost bit = { λ it net v k. bit_at_int (read net v it.nodes.now) (it.low +ℤ pos k) };

    ghost are = { λ it net. AreNodes net it.nodes.now };

    fn node(&self, net: &Net, at: usize) -> NodeId {
        match self.low.checked_add(at as i64) {
            Some(place) => {
                if place < 0 {
                    net.zero()
                } else {
                    node_or_zero(net, self.nodes, place as usize)
                }
            }
            None => net.zero(),
        }
    }
}

/// A word over which a part is written from a place on.
#[derive(Clone, Copy)]
struct Placed<'a> {
    part: &'a [NodeId],
    low: i64,
    whole: &'a [NodeId],
}

impl<'a> NodeByPlace for Placed<'a> {
    ghost bit = { λ it net v k. written (read net v it.part.now) (pos k -ℤ it.low) (bit_at (read net v it.whole.now) k) };

    ghost are = { λ it net. AreNodes net it.part.now × AreNodes net it.whole.now };

    fn node(&self, net: &Net, at: usize) -> NodeId {
        let old = node_or_zero(net, self.whole, at);
        match (at as i64).checked_sub(self.low) {
            Some(place) => {
                if place < 0 || place as usize >= self.part.len() {
                    old
                } else {
                    self.part[place as usize]
                }
            }
            None => old,
        }
    }
}

/// A constant as a word.
#[derive(Clone, Copy)]
struct Constant<'a> {
    bits: &'a Bits,
}

impl<'a> NodeByPlace for Constant<'a> {
    ghost bit = { λ it net v k. bit_at it.bits.now k };

    ghost are = { λ it net. Unit {0} };

    fn node(&self, net: &Net, at: usize) -> NodeId {
        if at < self.bits.len() && self.bits.get(at) {
            net.one()
        } else {
            net.zero()
        }
    }
}

/// The nodes of a constant: no node more.
pub fn constant_nodes(alloc: Global, net: &Net, bits: &Bits) -> Result<Items<NodeId>, NoMemory>
    ensures { IfOk result (λ r. IsWord net.now r (length bits.now) (λ v. bits.now)) }
{
    fill(alloc, net, &Constant { bits }, bits.len())
}

/// A word cut, or filled above with 0 or with its highest bit (IEEE 1364-2005, 5.5): no node more.
pub fn extend_nodes(
    alloc: Global,
    net: &Net,
    nodes: &[NodeId],
    len: usize,
    by_sign: bool,
) -> Result<Items<NodeId>, NoMemory>
    requires most { len ≤ 65536 }
    requires are { AreNodes net.now nodes.now }
    ensures { IfOk result (λ r. IsWord net.now r len (λ v. extended by_sign len (read net.now v nodes.now))) }
{
    fill(alloc, net, &Extended { nodes, by_sign }, len)
}

/// The nodes of a word from a place on, 0 outside (IEEE 1364-2005, 5.2.1): no node more.
pub fn select_nodes(
    alloc: Global,
    net: &Net,
    nodes: &[NodeId],
    low: i64,
    len: usize,
) -> Result<Items<NodeId>, NoMemory>
    requires most { len ≤ 65536 }
    requires are { AreNodes net.now nodes.now }
    ensures { IfOk result (λ r. IsWord net.now r len (λ v. selected low len (read net.now v nodes.now))) }
{
    fill(alloc, net, &Selected { nodes, low }, len)
}

/// A word over which a part is written from a place on, nothing outside (IEEE 1364-2005, 5.2.1): no node more.
pub fn place_nodes(
    alloc: Global,
    net: &Net,
    whole: &[NodeId],
    part: &[NodeId],
    low: i64,
) -> Result<Items<NodeId>, NoMemory>
    requires whole { AreNodes net.now whole.now }
    requires part { AreNodes net.now part.now }
    ensures { IfOk result (λ r. IsWord net.now r (length whole.now) (λ v. placed low (read net.now v part.now) (read net.now v whole.now))) }
{
    fill(alloc, net, &Placed { part, low, whole }, whole.len())
}

/// The same nodes once more.
pub fn copy_nodes(alloc: Global, nodes: &[NodeId]) -> Result<Items<NodeId>, NoMemory>
    ensures { IfOk result (λ r. r ≡ nodes.now) }
{
    Ok(Items::of(Vec::from_slice(alloc, nodes)?))
}
