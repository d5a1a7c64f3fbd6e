ghost use Rattle.std.specs.Prelude.{◌≡◌, ◌<◌, ◌≤◌, false, ◌&&◌, ◌++◌, drop, length, map, take, IfOk, if◌then◌else◌};
ghost use Rattle.bits_core.specs.Numbers.{difference_bits, is_less, product_bits, sum_bits};
ghost use Rattle.bits_core.specs.Places.{exclusive_or};
ghost use Rattle.bits_core.specs.Ripple.{ripple};
ghost use Rattle.cyc_net.specs.Nets.{value, Gated};
ghost use Rattle.design_core.specs.Operators.{negated};
ghost use Rattle.net_ops.specs.Places.{IsPlace};
ghost use Rattle.net_ops.specs.Words.{AreNodes, IsBit, IsWord, read};

use crate::gates::{and_gate, mux_gate, xor_gate};
use bits_core::{Items, NoMemory};
use cyc_net::{Net, NodeId};
use std::alloc::Global;

/// What goes to the next place, of a sum the carry and of a difference the borrow: one node.
fn carry_gate(
    net: &mut Net,
    subtract: bool,
    unlike: NodeId,
    b: NodeId,
    carry: NodeId,
) -> Result<NodeId, NoMemory>
    requires unlike { unlike < length net.old }
    requires second { b < length net.old }
    requires carry { carry < length net.old }
    ensures made { IfOk result (λ r. IsBit net.new r (λ v. if value net.old v unlike then (if subtract then value net.old v b else value net.old v carry) else (if subtract then value net.old v carry else value net.old v b))) }
    ensures kept { Gated net.old net.new }
{
    if subtract {
        mux_gate(net, unlike, b, carry)
    } else {
        mux_gate(net, unlike, carry, b)
    }
}

/// One place of a sum or a difference: its digit, and what goes to the next place. Three nodes.
fn add_place(
    net: &mut Net,
    subtract: bool,
    a: NodeId,
    b: NodeId,
    carry: NodeId,
) -> Result<(NodeId, NodeId), NoMemory>
    requires first { a < length net.old }
    requires second { b < length net.old }
    requires carry { carry < length net.old }
    ensures made { IfOk result (λ r. IsPlace net.old subtract a b carry net.new r.0 r.1) }
    ensures kept { Gated net.old net.new }
{
    let unlike = xor_gate(net, a, b)?;
    let digit = xor_gate(net, unlike, carry)?;
    let next = carry_gate(net, subtract, unlike, b, carry)?;
    Ok((digit, next))
}

/// The sum, or the first operand less the second: three nodes a bit.
fn add_all(
    alloc: Global,
    net: &mut Net,
    subtract: bool,
    a: &[NodeId],
    b: &[NodeId],
) -> Result<Items<NodeId>, NoMemory>
    requires first { AreNodes net.old a.now }
    requires second { AreNodes net.old b.now }
    requires same { length a.now ≡ length b.now }
    ensures made { IfOk result (λ r. IsWord net.new r (length a.now) (λ v. ripple subtract (read net.old v a.now) (map (exclusive_or subtract) (read net.old v b.now)))) }
    ensures kept { Gated net.old net.new }
{
    let mut carry = net.zero();
    let mut out = Items::new(alloc);
    for at in 0..a.len() {
        let (digit, next) = add_place(net, subtract, a[at], b[at], carry)?;
        out.push(digit)?;
        carry = next;
    }
    Ok(out)
}

/// The sum: three nodes a bit.
pub fn sum(
    alloc: Global,
    net: &mut Net,
    a: &[NodeId],
    b: &[NodeId],
) -> Result<Items<NodeId>, NoMemory>
    requires first { AreNodes net.old a.now }
    requires second { AreNodes net.old b.now }
    requires same { length a.now ≡ length b.now }
    ensures made { IfOk result (λ r. IsWord net.new r (length a.now) (λ v. sum_bits (read net.old v a.now) (read net.old v b.now))) }
    ensures kept { Gated net.old net.new }
{
    add_all(alloc, net, false, a, b)
}

/// The difference: three nodes a bit.
pub fn difference(
    alloc: Global,
    net: &mut Net,
    a: &[NodeId],
    b: &[NodeId],
) -> Result<Items<NodeId>, NoMemory>
    requires first { AreNodes net.old a.now }
    requires second { AreNodes net.old b.now }
    requires same { length a.now ≡ length b.now }
    ensures made { IfOk result (λ r. IsWord net.new r (length a.now) (λ v. difference_bits (read net.old v a.now) (read net.old v b.now))) }
    ensures kept { Gated net.old net.new }
{
    add_all(alloc, net, true, a, b)
}

/// The value with the other sign, as 0 less the word: three nodes a bit.
pub fn negation(alloc: Global, net: &mut Net, a: &[NodeId]) -> Result<Items<NodeId>, NoMemory>
    requires { AreNodes net.old a.now }
    ensures made { IfOk result (λ r. IsWord net.new r (length a.now) (λ v. negated (read net.old v a.now))) }
    ensures kept { Gated net.old net.new }
{
    let zeros = vec![in alloc; net.zero(); a.len()]?;
    difference(alloc, net, zeros.as_slice(), a)
}

/// Whether the first is below, by one place where the two differ, and else by the places below it: two nodes.
fn below_place(
    net: &mut Net,
    flip: bool,
    a: NodeId,
    b: NodeId,
    low: NodeId,
) -> Result<NodeId, NoMemory>
    requires first { a < length net.old }
    requires second { b < length net.old }
    requires low { low < length net.old }
    ensures made { IfOk result (λ r. IsBit net.new r (λ v. if exclusive_or (value net.old v a) (value net.old v b) then exclusive_or flip (value net.old v b) else value net.old v low)) }
    ensures kept { Gated net.old net.new }
{
    let unlike = xor_gate(net, a, b)?;
    let above = if flip { a } else { b };
    mux_gate(net, unlike, above, low)
}

/// Whether the first number is less, in two's complement where asked: two nodes a bit.
pub fn below(net: &mut Net, signed: bool, a: &[NodeId], b: &[NodeId]) -> Result<NodeId, NoMemory>
    requires first { AreNodes net.old a.now }
    requires second { AreNodes net.old b.now }
    requires same { length a.now ≡ length b.now }
    ensures made { IfOk result (λ r. IsBit net.new r (λ v. is_less signed (read net.old v a.now) (read net.old v b.now))) }
    ensures kept { Gated net.old net.new }
{
    let mut low = net.zero();
    for at in 0..a.len() {
        let top = at + 1 == a.len();
        low = below_place(net, signed & top, a[at], b[at], low)?;
    }
    Ok(low)
}

/// Adds to a word, from one place on, the first operand of a product where a bit of the second is 1: four nodes for each place from there on.
fn add_row(
    net: &mut Net,
    a: &[NodeId],
    bit: NodeId,
    from: usize,
    out: &mut [NodeId],
) -> Result<(), NoMemory>
    requires first { AreNodes net.old a.now }
    requires bit { bit < length net.old }
    requires word { AreNodes net.old out.old }
    requires within { from ≤ length out.old }
    requires long { length out.old ≤ length a.now }
    ensures made { IfOk result (λ r. IsWord net.new out.new (length out.old) (λ v. take from (read net.old v out.old) ++ ripple false (drop from (read net.old v out.old)) (map (λ x. value net.old v bit && x) (read net.old v a.now)))) }
    ensures kept { Gated net.old net.new }
{
    let mut carry = net.zero();
    for at in from..out.len() {
        let part = and_gate(net, bit, a[at - from])?;
        let (digit, next) = add_place(net, false, out[at], part, carry)?;
        out[at] = digit;
        carry = next;
    }
    Ok(())
}

/// The product: for each bit of the second operand the first is added from its place on. 2 n (n + 1) nodes for n bits.
pub fn product(
    alloc: Global,
    net: &mut Net,
    a: &[NodeId],
    b: &[NodeId],
) -> Result<Items<NodeId>, NoMemory>
    requires first { AreNodes net.old a.now }
    requires second { AreNodes net.old b.now }
    requires same { length a.now ≡ length b.now }
    ensures made { IfOk result (λ r. IsWord net.new r (length a.now) (λ v. product_bits (read net.old v a.now) (read net.old v b.now))) }
    ensures kept { Gated net.old net.new }
{
    let mut out = vec![in alloc; net.zero(); a.len()]?;
    for from in 0..b.len() {
        add_row(net, a, b[from], from, out.as_mut_slice())?;
    }
    Ok(Items::of(out))
}
