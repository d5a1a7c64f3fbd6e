ghost use Rattle.std.specs.Prelude.{◌≡◌, ◌≤◌, ◌&&◌, length, IfOk};
ghost use Rattle.bits_core.specs.Numbers.{is_less, number};
ghost use Rattle.bits_core.specs.Places.{is_set, shifted_right, sign_of};
ghost use Rattle.cyc_net.specs.Nets.{Gated};
ghost use Rattle.design_core.specs.Operators.{binary_value, is_equal, one_bit, unary_value};
ghost use Rattle.value_domain.specs.Lengths.{FitsBinary, FitsUnary, binary_length, unary_length};
ghost use Rattle.value_domain.specs.Words.{turned};
ghost use Rattle.net_ops.specs.Words.{AreNodes, IsWord, gate_of, read, reduction};

use crate::arithmetic::{below, difference, negation, product, sum};
use crate::gates::{Gate, join_gate};
use crate::places::sign_node;
use crate::shifts::{shifted_down, shifted_up};
use crate::words::{Reduction, alone, invert_all, join_all, reduce, truth};
use bits_core::{Items, NoMemory};
use cyc_net::{Net, NodeId};
use design_core::{Binary, Unary};
use std::alloc::Global;

/// A reduction or its negation: one node a bit, and one for the negation.
fn reduced(
    alloc: Global,
    net: &mut Net,
    kind: Reduction,
    positive: bool,
    a: &[NodeId],
) -> Result<Items<NodeId>, NoMemory>
    requires { AreNodes net.old a.now }
    ensures made { IfOk result (λ r. IsWord net.new r 1 (λ v. one_bit (turned positive (reduction kind (read net.old v a.now))))) }
    ensures kept { Gated net.old net.new }
{
    let node = reduce(net, kind, a)?;
    truth(alloc, net, node, positive)
}

/// Whether two words are the same, or not the same: two nodes a bit, and one where they are to be the same.
fn equality(
    alloc: Global,
    net: &mut Net,
    a: &[NodeId],
    b: &[NodeId],
    positive: bool,
) -> Result<Items<NodeId>, NoMemory>
    requires first { AreNodes net.old a.now }
    requires second { AreNodes net.old b.now }
    requires same { length a.now ≡ length b.now }
    ensures made { IfOk result (λ r. IsWord net.new r 1 (λ v. one_bit (turned positive (is_equal (read net.old v a.now) (read net.old v b.now))))) }
    ensures kept { Gated net.old net.new }
{
    let unlike = join_all(alloc, net, Gate::Xor, a, b)?;
    reduced(alloc, net, Reduction::Or, !positive, unlike.as_slice())
}

/// A gate over whether some bit of each word is 1: one node a bit of both, and the gate's.
fn logic(
    alloc: Global,
    net: &mut Net,
    kind: Gate,
    a: &[NodeId],
    b: &[NodeId],
) -> Result<Items<NodeId>, NoMemory>
    requires first { AreNodes net.old a.now }
    requires second { AreNodes net.old b.now }
    ensures made { IfOk result (λ r. IsWord net.new r 1 (λ v. one_bit (gate_of kind (is_set (read net.old v a.now)) (is_set (read net.old v b.now))))) }
    ensures kept { Gated net.old net.new }
{
    let first = reduce(net, Reduction::Or, a)?;
    let second = reduce(net, Reduction::Or, b)?;
    let node = join_gate(net, kind, first, second)?;
    alone(alloc, node)
}

/// Whether the first number is less, or not less: two nodes a bit, and one for the negation.
fn order(
    alloc: Global,
    net: &mut Net,
    a: &[NodeId],
    b: &[NodeId],
    signed: bool,
    positive: bool,
) -> Result<Items<NodeId>, NoMemory>
    requires first { AreNodes net.old a.now }
    requires second { AreNodes net.old b.now }
    requires same { length a.now ≡ length b.now }
    ensures made { IfOk result (λ r. IsWord net.new r 1 (λ v. one_bit (turned positive (is_less signed (read net.old v a.now) (read net.old v b.now))))) }
    ensures kept { Gated net.old net.new }
{
    let less = below(net, signed, a, b)?;
    truth(alloc, net, less, positive)
}

/// A word moved down, filled with 0 or, where it has a sign, with its highest bit: as many nodes as `shifted_down` makes.
fn moved_down(
    alloc: Global,
    net: &mut Net,
    a: &[NodeId],
    by: &[NodeId],
    by_sign: bool,
) -> Result<Items<NodeId>, NoMemory>
    requires first { AreNodes net.old a.now }
    requires second { AreNodes net.old by.now }
    ensures made { IfOk result (λ r. IsWord net.new r (length a.now) (λ v. shifted_right (by_sign && sign_of (read net.old v a.now)) (number (read net.old v by.now)) (read net.old v a.now))) }
    ensures kept { Gated net.old net.new }
{
    let fill = sign_node(net, a, by_sign);
    shifted_down(alloc, net, fill, a, by)
}

/// The operator on one word of n bits: three n nodes for the negation of a number, n for the inversion of the bits or a reduction, and one
/// more for a reduction's negation.
pub fn unary_nodes(
    alloc: Global,
    net: &mut Net,
    op: Unary,
    a: &[NodeId],
) -> Result<Items<NodeId>, NoMemory>
    requires fits { FitsUnary op (length a.now) }
    requires are { AreNodes net.old a.now }
    ensures made { IfOk result (λ r. IsWord net.new r (unary_length op (length a.now)) (λ v. unary_value op (read net.old v a.now))) }
    ensures kept { Gated net.old net.new }
{
    match op {
        Unary::Negate => negation(alloc, net, a),
        Unary::Invert => invert_all(alloc, net, a),
        Unary::Not => reduced(alloc, net, Reduction::Or, false, a),
        Unary::And => reduced(alloc, net, Reduction::And, true, a),
        Unary::Nand => reduced(alloc, net, Reduction::And, false, a),
        Unary::Or => reduced(alloc, net, Reduction::Or, true, a),
        Unary::Nor => reduced(alloc, net, Reduction::Or, false, a),
        Unary::Xor => reduced(alloc, net, Reduction::Xor, true, a),
        Unary::Xnor => reduced(alloc, net, Reduction::Xor, false, a),
    }
}

/// The operator on two words, of n bits each where they are joined: three n nodes for a sum or a difference, 2 n (n + 1) for a product, n for a
/// bitwise operator or two n for equivalence, two n for a comparison and one more for its negation or for equality, one a bit of both words
/// and one more for a logical operator, and for a shift as `shifted_up` says.
pub fn binary_nodes(
    alloc: Global,
    net: &mut Net,
    op: Binary,
    a: &[NodeId],
    b: &[NodeId],
    signed: bool,
) -> Result<Items<NodeId>, NoMemory>
    requires fits { FitsBinary op (length a.now) (length b.now) }
    requires first { AreNodes net.old a.now }
    requires second { AreNodes net.old b.now }
    ensures made { IfOk result (λ r. IsWord net.new r (binary_length op (length a.now)) (λ v. binary_value op signed (read net.old v a.now) (read net.old v b.now))) }
    ensures kept { Gated net.old net.new }
{
    match op {
        Binary::Add => sum(alloc, net, a, b),
        Binary::Sub => difference(alloc, net, a, b),
        Binary::Mul => product(alloc, net, a, b),
        Binary::And => join_all(alloc, net, Gate::And, a, b),
        Binary::Or => join_all(alloc, net, Gate::Or, a, b),
        Binary::Xor => join_all(alloc, net, Gate::Xor, a, b),
        Binary::Xnor => join_all(alloc, net, Gate::Xnor, a, b),
        Binary::Less => order(alloc, net, a, b, signed, true),
        Binary::LessEqual => order(alloc, net, b, a, signed, false),
        Binary::Greater => order(alloc, net, b, a, signed, true),
        Binary::GreaterEqual => order(alloc, net, a, b, signed, false),
        Binary::Equal => equality(alloc, net, a, b, true),
        Binary::NotEqual => equality(alloc, net, a, b, false),
        Binary::LogicAnd => logic(alloc, net, Gate::And, a, b),
        Binary::LogicOr => logic(alloc, net, Gate::Or, a, b),
        Binary::ShiftLeft => shifted_up(alloc, net, a, b),
        Binary::ShiftRight => moved_down(alloc, net, a, b, false),
        Binary::ShiftRightSigned => moved_down(alloc, net, a, b, signed),
    }
}
