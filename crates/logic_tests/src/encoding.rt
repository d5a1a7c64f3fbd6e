use bits_core::NoMemory;
use cnf_core::Formula;
use cyc_net::{Net, Node};
use std::alloc::Global;
use std::test::Fail;
use tseitin_cnf::{encode, encode_part};

/// The number of variables, and the literals of the clauses, 0 behind each.
fn spelled(alloc: Global, formula: &Formula) -> Result<Vec<i64>, NoMemory> {
    let mut out = Vec::new(alloc);
    out.push(i64::from(formula.variables))?;
    for clause in formula.clauses.as_slice() {
        for lit in clause.as_slice() {
            out.push(i64::from(lit.value()))?;
        }
        out.push(0)?;
    }
    Ok(out)
}

/// The formula of `a and b`, in a net with nodes that it does not read.
fn both(alloc: Global) -> Result<Vec<i64>, NoMemory> {
    let mut net = Net::new(alloc)?;
    let a = net.push(Node::Leaf(0))?;
    let b = net.push(Node::Leaf(1))?;
    let _unread = net.push(Node::Leaf(2))?;
    if a as usize >= net.len() || b as usize >= net.len() {
        return Ok(Vec::new(alloc));
    }
    let _other = net.push(Node::Xor(a, b))?;
    let goal = net.push(Node::And(a, b))?;
    let _above = net.push(Node::Mux(a, goal, b))?;
    if goal as usize >= net.len() || !net.leaves_below(3) {
        return Ok(Vec::new(alloc));
    }
    let encoded = encode(alloc, &net, 3, goal)?;
    spelled(alloc, &encoded.formula)
}

#[test]
fn leaves_out_what_the_goal_does_not_read(rt: HostRuntime) -> Result<(), Fail> {
    let alloc = rt.alloc();
    let found = both(alloc).ok().ok_or("memory")?;
    assert!(rt; found.as_slice() == [4, -4, 1, 0, -4, 2, 0, 4, -1, -2, 0, 4, 0].as_slice());
    Ok(())
}

/// The formula of `a and b` over b alone: a is 0.
fn over_second(alloc: Global) -> Result<Vec<i64>, NoMemory> {
    let mut net = Net::new(alloc)?;
    let a = net.push(Node::Leaf(0))?;
    let b = net.push(Node::Leaf(1))?;
    if a as usize >= net.len() || b as usize >= net.len() {
        return Ok(Vec::new(alloc));
    }
    let goal = net.push(Node::And(a, b))?;
    if goal as usize >= net.len() {
        return Ok(Vec::new(alloc));
    }
    let encoded = encode_part(alloc, &net, &[1], goal)?;
    spelled(alloc, &encoded.formula)
}

#[test]
fn other_leaves_are_zero(rt: HostRuntime) -> Result<(), Fail> {
    let alloc = rt.alloc();
    let found = over_second(alloc).ok().ok_or("memory")?;
    assert!(rt; found.as_slice() == [3, -2, 0, -3, 2, 0, -3, 1, 0, 3, -2, -1, 0, 3, 0].as_slice());
    Ok(())
}
