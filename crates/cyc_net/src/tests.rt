use crate::{Net, Node};
use bits_core::NoMemory;
use std::alloc::Global;
use std::test::Fail;

/// The last three nodes under the values of three leaves: both, either but not both, and a choice.
fn gates(alloc: Global, leaves: &[bool]) -> Result<Vec<bool>, NoMemory> {
    let mut net = Net::new(alloc)?;
    let a = net.push(Node::Leaf(0))?;
    let b = net.push(Node::Leaf(1))?;
    let c = net.push(Node::Leaf(2))?;
    let mut found = Vec::new(alloc);
    if a as usize >= net.len() || b as usize >= net.len() || c as usize >= net.len() {
        return Ok(found);
    }
    let both = net.push(Node::And(a, b))?;
    let either = net.push(Node::Xor(a, b))?;
    let choice = net.push(Node::Mux(c, a, b))?;
    if !net.leaves_below(leaves.len()) || net.leaves_below(2) {
        return Ok(found);
    }
    let mut values = vec![in alloc; false; net.len()]?;
    net.eval_into(leaves, values.as_mut_slice());
    for node in [both, either, choice, 0, 1] {
        if let Some(value) = values.as_slice().get(node as usize) {
            found.push(*value)?;
        }
    }
    Ok(found)
}

#[test]
fn evaluates_gates(rt: HostRuntime) -> Result<(), Fail> {
    let alloc = rt.alloc();
    let table = [
        ([false, false, false], [false, false, false, false, true]),
        ([true, false, false], [false, true, false, false, true]),
        ([false, true, false], [false, true, true, false, true]),
        ([true, true, false], [true, false, true, false, true]),
        ([false, false, true], [false, false, false, false, true]),
        ([true, false, true], [false, true, true, false, true]),
        ([false, true, true], [false, true, false, false, true]),
        ([true, true, true], [true, false, true, false, true]),
    ];
    for (leaves, want) in table {
        let found = gates(alloc, &leaves).ok().ok_or("memory")?;
        assert!(rt; found.as_slice() == want.as_slice());
    }
    Ok(())
}
