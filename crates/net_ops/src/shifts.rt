ghost use Rattle.std.specs.Prelude.{◌≡◌, ◌<◌, length, IfOk, if◌then◌else◌};
ghost use Rattle.bits_core.specs.Numbers.{number};
ghost use Rattle.bits_core.specs.Places.{shifted_left, shifted_right};
ghost use Rattle.cyc_net.specs.Nets.{value, Gated};
ghost use Rattle.net_ops.specs.Moves.{come, moved};
ghost use Rattle.net_ops.specs.Words.{AreNodes, IsBit, IsWord, read};

use crate::gates::mux_gate;
use crate::places::copy_nodes;
use crate::words::{Reduction, reduce};
use bits_core::{Items, NoMemory};
use cyc_net::{Net, NodeId};
use std::alloc::Global;

/// The node that comes to a place where a word is moved. Makes no node.
fn coming(net: &Net, left: bool, fill: NodeId, by: usize, a: &[NodeId], at: usize) -> NodeId
    requires fill { fill < length net.now }
    requires word { AreNodes net.now a.now }
    requires within { at < length a.now }
    ensures { IsBit net.now result (λ v. come left (value net.now v fill) by (read net.now v a.now) at) }
{
    if left {
        if at < by { net.zero() } else { a[at - by] }
    } else if by < a.len() - at {
        a[at + by]
    } else {
        fill
    }
}

/// The word moved by a number of places where a test is 1: one node a bit.
fn stage(
    alloc: Global,
    net: &mut Net,
    left: bool,
    fill: NodeId,
    by: usize,
    test: NodeId,
    a: &[NodeId],
) -> Result<Items<NodeId>, NoMemory>
    requires fill { fill < length net.old }
    requires test { test < length net.old }
    requires word { AreNodes net.old a.now }
    ensures made { IfOk result (λ r. IsWord net.new r (length a.now) (λ v. if value net.old v test then moved left (value net.old v fill) by (read net.old v a.now) else read net.old v a.now)) }
    ensures kept { Gated net.old net.new }
{
    let mut out = Items::new(alloc);
    for at in 0..a.len() {
        let other = coming(net, left, fill, by, a, at);
        let made = mux_gate(net, test, other, a[at])?;
        out.push(made)?;
    }
    Ok(out)
}

/// The word moved by the number of another: a stage for each bit that counts less than the word has places, and one for all bits above.
fn shifted(
    alloc: Global,
    net: &mut Net,
    left: bool,
    fill: NodeId,
    a: &[NodeId],
    by: &[NodeId],
) -> Result<Items<NodeId>, NoMemory>
    requires fill { fill < length net.old }
    requires word { AreNodes net.old a.now }
    requires amount { AreNodes net.old by.now }
    ensures made { IfOk result (λ r. IsWord net.new r (length a.now) (λ v. moved left (value net.old v fill) (number (read net.old v by.now)) (read net.old v a.now))) }
    ensures kept { Gated net.old net.new }
{
    let mut now = copy_nodes(alloc, a)?;
    let mut at = 0;
    let mut step = 1;
    while at < by.len() && step < a.len() {
        now = stage(alloc, net, left, fill, step, by[at], now.as_slice())?;
        step *= 2;
        at += 1;
    }
    if at == by.len() {
        return Ok(now);
    }
    let past = reduce(net, Reduction::Or, &by[at..])?;
    stage(alloc, net, left, fill, a.len(), past, now.as_slice())
}

/// The word moved up by the number of another, filled with 0. For n bits one node for each bit of the amount that counts n or more, and n
/// nodes for each other bit of it and for those together.
#[tactic(auto, unfolding(crate::specs::Moves::moved))]
pub fn shifted_up(
    alloc: Global,
    net: &mut Net,
    a: &[NodeId],
    by: &[NodeId],
) -> Result<Items<NodeId>, NoMemory>
    requires word { AreNodes net.old a.now }
    requires amount { AreNodes net.old by.now }
    ensures made { IfOk result (λ r. IsWord net.new r (length a.now) (λ v. shifted_left (number (read net.old v by.now)) (read net.old v a.now))) }
    ensures kept { Gated net.old net.new }
{
    let zero = net.zero();
    shifted(alloc, net, true, zero, a, by)
}

/// The word moved down by the number of another, filled with a bit; as many nodes as the other way.
#[tactic(auto, unfolding(crate::specs::Moves::moved))]
pub fn shifted_down(
    alloc: Global,
    net: &mut Net,
    fill: NodeId,
    a: &[NodeId],
    by: &[NodeId],
) -> Result<Items<NodeId>, NoMemory>
    requires fill { fill < length net.old }
    requires word { AreNodes net.old a.now }
    requires amount { AreNodes net.old by.now }
    ensures made { IfOk result (λ r. IsWord net.new r (length a.now) (λ v. shifted_right (value net.old v fill) (number (read net.old v by.now)) (read net.old v a.now))) }
    ensures kept { Gated net.old net.new }
{
    shifted(alloc, net, false, fill, a, by)
}
