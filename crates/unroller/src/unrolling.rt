ghost use Rattle.std.specs.Prelude.{◌≡◌, ℕ, ◌+◌, ◌<◌, ◌||◌, ◌^◌, ◌++◌, ◌∷◌, [], List, Bool, eqb, ltb, false, length, map, IfOk, OnOk};
ghost use Rattle.cyc_net.specs.Nets.{value, has_leaf, gate_value, ReadsBelow, Extends};
ghost use Rattle.cyc_net.specs.Cycles.{IsCycleNet, LeavesFrom, leaf_of, bit_of, next_of};
ghost use Rattle.unroller.specs.Setups.{value_of, reset_value, or_some, is_one, IsUnrolled, FollowsAll};
ghost use Rattle.unroller.specs.Steps.{Apart, Across, AreNodes, InputSays, Started, Given, Copied, Before};
ghost use Rattle.unroller.specs.Tables.{read_value, read_node};
ghost use Rattle.cyc_net.specs.declared.cycle.BitNode.{BitNode};
ghost use Rattle.unroller.specs.declared.setup.StartState.{StartState};
ghost use Rattle.unroller.specs.declared.setup.StartState.TheVariants.{Free, PowerUp};

use crate::frames::{FrameList, Unrolled};
use crate::setup::{Fixed, FixedBitList, FixedReset, StartState};
use crate::tables::{nexts_by_place, put_node, values_by_place};
use bits_core::{Items, NoMemory};
use cyc_net::{BitLeaf, BitNode, CycleNet, Net, Node, NodeId, NodeList};
use std::alloc::Global;

/// A new leaf with the next number, which is wanting where the numbers are at their end.
fn push_leaf(net: &mut Net, leaves: u32) -> Result<NodeId, NoMemory>
    ensures within { IfOk result (λ at. (at < length net.new) × (leaves + 1 < 2 ^ 32)) }
    ensures worth { IfOk result (λ at. (v : ℕ → Bool) → value net.new v at ≡ v leaves) }
    ensures kept { Extends net.old net.new }
    ensures has { OnOk result ((i : ℕ) → has_leaf net.new i ≡ (has_leaf net.old i || eqb i leaves)) }
{
    if leaves == u32::MAX {
        return Err(NoMemory);
    }
    net.push(Node::Leaf(leaves))
}

/// The node of a constant.
fn constant(net: &Net, bit: bool) -> NodeId
    ensures within { result < length net.now }
    ensures worth { (v : ℕ → Bool) → value net.now v result ≡ bit }
{
    if bit { net.one() } else { net.zero() }
}

/// Gives each stored bit a leaf, in their order.
fn free_states(
    net: &mut Net,
    states: &[BitLeaf],
    sources: &mut Vec<NodeId>,
) -> Result<u32, NoMemory>
    requires apart { Apart states.now }
    requires nodes { AreNodes net.old sources.old.items }
    requires none { (i : ℕ) → has_leaf net.old i ≡ false }
    ensures { IfOk result (λ leaves. Started Free states.now net.old net.new sources.new.items leaves) }
{
    let mut leaves = 0;
    for state in states {
        let node = push_leaf(net, leaves)?;
        put_node(sources, state.leaf, node)?;
        leaves += 1;
    }
    Ok(leaves)
}

/// Gives each stored bit the constant of its value at power-up.
fn fixed_states(
    alloc: Global,
    net: &Net,
    states: &[BitLeaf],
    values: &FixedBitList,
    sources: &mut Vec<NodeId>,
) -> Result<(), NoMemory>
    requires ascend { LeavesFrom 0 states.now }
    requires apart { Apart states.now }
    requires nodes { AreNodes net.now sources.old.items }
    requires none { (i : ℕ) → has_leaf net.now i ≡ false }
    ensures { OnOk result (Started (PowerUp values.now) states.now net.now net.now sources.new.items 0) }
{
    let table = values_by_place(alloc, states, values.as_slice())?;
    for at in 0..states.len() {
        let node = constant(net, is_set(table.as_slice(), at));
        put_node(sources, states[at].leaf, node)?;
    }
    Ok(())
}

/// Whether a table has the value 1 at a place.
fn is_set(table: &[Option<bool>], place: usize) -> bool
    ensures { result ≡ is_one (read_value table.now place) }
{
    match table.get(place) {
        Some(Some(value)) => *value,
        _ => false,
    }
}

/// The stored bits of the first cycle.
fn place_states(
    alloc: Global,
    net: &mut Net,
    states: &[BitLeaf],
    start: &StartState,
    sources: &mut Vec<NodeId>,
) -> Result<u32, NoMemory>
    requires ascend { LeavesFrom 0 states.now }
    requires apart { Apart states.now }
    requires nodes { AreNodes net.old sources.old.items }
    requires none { (i : ℕ) → has_leaf net.old i ≡ false }
    ensures { IfOk result (λ leaves. Started start.now states.now net.old net.new sources.new.items leaves) }
{
    match start {
        StartState::Free => free_states(net, states, sources),
        StartState::PowerUp(values) => {
            fixed_states(alloc, net, states, values, sources)?;
            Ok(0)
        }
    }
}

/// The value that the input bit at a place has in a cycle, where it is pinned or the reset.
fn fixed_value(
    pins: &[Option<bool>],
    reset: &Option<FixedReset>,
    place: usize,
    bit: u32,
    cycle: u32,
) -> Option<bool>
    ensures { result ≡ or_some (read_value pins.now place) (reset_value reset.now cycle bit) }
{
    if let Some(Some(value)) = pins.get(place) {
        return Some(*value);
    }
    match reset {
        Some(reset) if reset.bit == bit => Some(if cycle < reset.cycles {
            reset.asserted
        } else {
            !reset.asserted
        }),
        _ => None,
    }
}

/// The node of an input bit in a cycle: a constant where it is fixed, else the next leaf.
fn input_node(net: &mut Net, fixed: Option<bool>, leaves: u32) -> Result<(NodeId, u32), NoMemory>
    ensures kept { Extends net.old net.new }
    ensures within { IfOk result (λ r. r.0 < length net.new) }
    ensures says { IfOk result (λ r. InputSays fixed leaves net.old net.new r.0 r.1) }
{
    match fixed {
        Some(value) => Ok((constant(net, value), leaves)),
        None => {
            let node = push_leaf(net, leaves)?;
            Ok((node, leaves + 1))
        }
    }
}

/// The input bits of a cycle.
fn place_inputs(
    net: &mut Net,
    inputs: &[BitLeaf],
    pins: &[Option<bool>],
    setup: &Fixed,
    cycle: u32,
    sources: &mut Vec<NodeId>,
    first: u32,
) -> Result<u32, NoMemory>
    requires apart { Apart inputs.now }
    requires nodes { AreNodes net.old sources.old.items }
    requires has { (i : ℕ) → has_leaf net.old i ≡ ltb i first }
    requires pins { (k : ℕ) → k < length inputs.now → read_value pins.now k ≡ value_of setup.now.pins (bit_of inputs.now k) }
    ensures { IfOk result (λ leaves. Given setup.now cycle inputs.now net.old sources.old.items first net.new sources.new.items leaves) }
{
    let mut leaves = first;
    for at in 0..inputs.len() {
        let input = inputs[at];
        let fixed = fixed_value(pins, &setup.reset, at, input.bit, cycle);
        let (node, next) = input_node(net, fixed, leaves)?;
        put_node(sources, input.leaf, node)?;
        leaves = next;
    }
    Ok(leaves)
}

/// The node at a place of a table, and node 0 where there is none.
fn node_at(table: &[NodeId], place: usize) -> NodeId
    ensures { result ≡ read_node table.now place }
{
    match table.get(place) {
        Some(node) => *node,
        None => 0,
    }
}

/// A node of the cycle net, over the sources of its leaves and the copies of the nodes before it.
fn copy_node(
    net: &mut Net,
    node: Node,
    sources: &[NodeId],
    copies: &[NodeId],
) -> Result<NodeId, NoMemory>
    requires sources { AreNodes net.old sources.now }
    requires copies { AreNodes net.old copies.now }
    ensures kept { Extends net.old net.new }
    ensures within { IfOk result (λ at. at < length net.new) }
    ensures worth { IfOk result (λ at. (w : ℕ → Bool) → value net.new w at ≡ gate_value (λ l. value net.old w (read_node sources.now l)) (λ k. value net.old w (read_node copies.now k)) node) }
    ensures has { OnOk result ((i : ℕ) → has_leaf net.new i ≡ has_leaf net.old i) }
{
    match node {
        Node::Const(value) => Ok(constant(net, value)),
        Node::Leaf(number) => Ok(node_at(sources, number as usize)),
        Node::And(a, b) => {
            let gate = Node::And(node_at(copies, a as usize), node_at(copies, b as usize));
            Ok(net.push(gate)?)
        }
        Node::Xor(a, b) => {
            let gate = Node::Xor(node_at(copies, a as usize), node_at(copies, b as usize));
            Ok(net.push(gate)?)
        }
        Node::Mux(c, a, b) => Ok(net.push(Node::Mux(
            node_at(copies, c as usize),
            node_at(copies, a as usize),
            node_at(copies, b as usize),
        ))?),
    }
}

/// The nodes of the cycle net, over the sources of its leaves.
fn copy_net(
    alloc: Global,
    net: &mut Net,
    cycle: &Net,
    sources: &[NodeId],
) -> Result<Vec<NodeId>, NoMemory>
    requires { AreNodes net.old sources.now }
    ensures { IfOk result (λ copies. Copied cycle.now net.old sources.now net.new copies.items) }
{
    prove!(net.len() >= 2);
    let mut copies = Vec::new(alloc);
    for at in 0..cycle.len() {
        let copy = copy_node(net, cycle.node(at as NodeId), sources, copies.as_slice())?;
        copies.push(copy)?;
    }
    Ok(copies)
}

/// The copies of the bits' nodes.
fn frame_of(alloc: Global, bits: &[BitNode], copies: &[NodeId]) -> Result<NodeList, NoMemory>
    ensures { IfOk result (λ frame. frame ≡ map (λ p. record { bit = p.bit; node = read_node copies.now p.node }) bits.now) }
{
    let mut frame = Items::new(alloc);
    for bit in bits {
        frame.push(BitNode {
            bit: bit.bit,
            node: node_at(copies, bit.node as usize),
        })?;
    }
    Ok(frame)
}

/// The stored bits of the next cycle.
fn next_states(
    states: &[BitLeaf],
    nexts: &[NodeId],
    copies: &[NodeId],
    sources: &mut Vec<NodeId>,
) -> Result<(), NoMemory>
    requires apart { Apart states.now }
    ensures linked { OnOk result ((k : ℕ) → k < length states.now → read_node sources.new.items (leaf_of states.now k) ≡ read_node copies.now (read_node nexts.now k)) }
    ensures nodes { OnOk result ((n : ℕ) → ((l : ℕ) → read_node sources.old.items l < n) → ((l : ℕ) → read_node copies.now l < n) → (l : ℕ) → read_node sources.new.items l < n) }
{
    for at in 0..states.len() {
        let next = node_at(nexts, at);
        put_node(sources, states[at].leaf, node_at(copies, next as usize))?;
    }
    Ok(())
}

/// One more cycle: its input bits, its nodes, and the stored bits of the next one.
fn step(
    alloc: Global,
    net: &mut Net,
    cycle: &CycleNet,
    pins: &[Option<bool>],
    nexts: &[NodeId],
    setup: &Fixed,
    at: u32,
    sources: &mut Vec<NodeId>,
    leaves: u32,
) -> Result<(NodeList, u32), NoMemory>
    requires cycle { IsCycleNet cycle.now }
    requires pins { (k : ℕ) → k < length cycle.now.inputs → read_value pins.now k ≡ value_of setup.now.pins (bit_of cycle.now.inputs k) }
    requires nexts { (k : ℕ) → k < length cycle.now.states → read_node nexts.now k ≡ next_of cycle.now.nexts (bit_of cycle.now.states k) }
    requires nodes { AreNodes net.old sources.old.items }
    requires has { (i : ℕ) → has_leaf net.old i ≡ ltb i leaves }
    ensures { IfOk result (λ r. (start : StartState) (frames : List (List BitNode)) → Before cycle.now setup.now start at net.old sources.old.items leaves frames → Before cycle.now setup.now start (at + 1) net.new sources.new.items r.1 (frames ++ r.0 ∷ [])) }
{
    prove!(cycle.net.len() >= 2);
    let inputs = cycle.inputs.as_slice();
    let states = cycle.states.as_slice();
    let bits = cycle.bits.as_slice();
    let more = place_inputs(net, inputs, pins, setup, at, sources, leaves)?;
    let known = sources.as_slice();
    let copies = copy_net(alloc, net, &cycle.net, known)?;
    let copied = copies.as_slice();
    let frame = frame_of(alloc, bits, copied)?;
    next_states(states, nexts, copied, sources)?;
    Ok((frame, more))
}

/// The windows of a cycle net over so many cycles, where the start is free, and else its runs from power-up. Pinned bits and the reset have
/// their values, and each other input bit of each cycle is a leaf; before these come the stored bits of the first cycle, where they
/// are free. A net of 2^27 nodes is full, so there are no more leaves.
///
/// Linear in the cycles times the nodes and bits of the cycle net. Besides, once, a search among the inputs or the stored bits for each
/// pin, each value at power-up and each next node, and a table as long as the greatest leaf number of the cycle net.
pub fn unroll(
    alloc: Global,
    cycle: &CycleNet,
    setup: &Fixed,
    frames: u32,
    start: &StartState,
) -> Result<Unrolled, NoMemory>
    requires { IsCycleNet cycle.now }
    ensures unrolled { IfOk result (λ unrolled. IsUnrolled cycle.now setup.now frames start.now unrolled) }
    ensures follows { IfOk result (λ unrolled. FollowsAll cycle.now setup.now frames start.now unrolled) }
{
    let mut net = Net::new(alloc)?;
    let mut sources = Vec::new(alloc);
    let inputs = cycle.inputs.as_slice();
    let states = cycle.states.as_slice();
    let pins = values_by_place(alloc, inputs, setup.pins.as_slice())?;
    let nexts = nexts_by_place(alloc, states, cycle.nexts.as_slice())?;
    let mut leaves = place_states(alloc, &mut net, states, start, &mut sources)?;
    let mut done = Items::new(alloc);
    for at in 0..frames {
        let pins = pins.as_slice();
        let nexts = nexts.as_slice();
        let (frame, more) = step(
            alloc,
            &mut net,
            cycle,
            pins,
            nexts,
            setup,
            at,
            &mut sources,
            leaves,
        )?;
        done.push(frame)?;
        leaves = more;
    }
    prove!(net.len() <= 134_217_728);
    Ok(Unrolled {
        net,
        leaves,
        frames: done,
    })
}
