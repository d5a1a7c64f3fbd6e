ghost use Rattle.std.specs.Prelude.{◌≡◌, ◌∷◌, [], IfOk};
ghost use Rattle.cyc_net.specs.Cycles.{IsCycleNet};

use bits_core::{Items, NoMemory};
use cyc_net::{BitLeaf, BitNode, CycleNet, LeafList, Net, Node, NodeList};
use std::alloc::Global;
use std::test::Fail;
use unroller::{Fixed, FixedBit, FixedBitList, StartState, Unrolled, unroll};

fn one_leaf(alloc: Global, first: BitLeaf) -> Result<LeafList, NoMemory>
    ensures { IfOk result (λ list. list ≡ first ∷ []) }
{
    let mut list = Items::new(alloc);
    list.push(first)?;
    Ok(list)
}

fn two_leaves(alloc: Global, first: BitLeaf, second: BitLeaf) -> Result<LeafList, NoMemory>
    ensures { IfOk result (λ list. list ≡ first ∷ second ∷ []) }
{
    let mut list = Items::new(alloc);
    list.push(first)?;
    list.push(second)?;
    Ok(list)
}

fn two_nodes(alloc: Global, first: BitNode, second: BitNode) -> Result<NodeList, NoMemory>
    ensures { IfOk result (λ list. list ≡ first ∷ second ∷ []) }
{
    let mut list = Items::new(alloc);
    list.push(first)?;
    list.push(second)?;
    Ok(list)
}

/// Two registers in a row: bit 1 is the input d, bit 2 the output q, bit 3 the register p between.
fn two_registers(alloc: Global) -> Result<CycleNet, NoMemory>
    ensures { IfOk result (λ cycle. IsCycleNet cycle) }
{
    let mut net = Net::new(alloc)?;
    let d = net.push(Node::Leaf(0))?;
    let p = net.push(Node::Leaf(1))?;
    let q = net.push(Node::Leaf(2))?;
    let inputs = one_leaf(alloc, BitLeaf { bit: 1, leaf: 0 })?;
    let states = two_leaves(
        alloc,
        BitLeaf { bit: 2, leaf: 2 },
        BitLeaf { bit: 3, leaf: 1 },
    )?;
    let bits = two_nodes(
        alloc,
        BitNode { bit: 1, node: d },
        BitNode { bit: 2, node: q },
    )?;
    let nexts = two_nodes(
        alloc,
        BitNode { bit: 2, node: p },
        BitNode { bit: 3, node: d },
    )?;
    Ok(CycleNet {
        net,
        inputs,
        states,
        bits,
        nexts,
    })
}

/// The value of a bit of a frame, by its place, under values of the leaves.
fn value_in(
    alloc: Global,
    unrolled: &Unrolled,
    frame: usize,
    place: usize,
    leaves: &[bool],
) -> Result<bool, NoMemory> {
    if !unrolled.net.leaves_below(leaves.len()) || frame >= unrolled.frames.len() {
        return Err(NoMemory);
    }
    let nodes = unrolled.frames.get(frame);
    if place >= nodes.len() {
        return Err(NoMemory);
    }
    let node = nodes.get(place).node;
    let mut values = vec![in alloc; false; unrolled.net.len()]?;
    unrolled.net.eval_into(leaves, values.as_mut_slice());
    match values.as_slice().get(node as usize) {
        Some(value) => Ok(*value),
        None => Err(NoMemory),
    }
}

/// The registers over three cycles from power-up, p at 0 and q at 1.
fn three_cycles(alloc: Global) -> Result<Unrolled, NoMemory> {
    let cycle = two_registers(alloc)?;
    let mut start: FixedBitList = Items::new(alloc);
    start.push(FixedBit {
        bit: 3,
        value: false,
    })?;
    start.push(FixedBit {
        bit: 2,
        value: true,
    })?;
    let setup = Fixed {
        pins: Items::new(alloc),
        reset: None,
    };
    unroll(alloc, &cycle, &setup, 3, &StartState::PowerUp(start))
}

#[test]
fn output_follows_input_by_two_cycles(rt: HostRuntime) -> Result<(), Fail> {
    let alloc = rt.alloc();
    let unrolled = three_cycles(alloc).ok().ok_or("memory")?;
    assert_eq!(rt; unrolled.leaves, 3);
    let table = [
        [false, false, false],
        [true, false, false],
        [false, true, false],
        [true, true, false],
        [false, false, true],
        [true, false, true],
        [false, true, true],
        [true, true, true],
    ];
    for d in table {
        assert_eq!(rt; value_in(alloc, &unrolled, 2, 1, &d), Ok(d[0]));
        assert_eq!(rt; value_in(alloc, &unrolled, 1, 1, &d), Ok(false));
        assert_eq!(rt; value_in(alloc, &unrolled, 0, 1, &d), Ok(true));
        assert_eq!(rt; value_in(alloc, &unrolled, 1, 0, &d), Ok(d[1]));
    }
    Ok(())
}
