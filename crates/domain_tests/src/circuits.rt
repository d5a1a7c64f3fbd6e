ghost use Rattle.std.specs.Prelude.{◌≡◌, ◌≤◌, length, IfOk};
ghost use Rattle.cyc_net.specs.Nets.{Extends};
ghost use Rattle.net_ops.specs.Words.{AreNodes};

use bits_core::{Bits, Items, NoMemory};
use cyc_net::{Net, Node, NodeId};
use design_core::{Binary, Unary};
use net_ops::NetDomain;
use std::alloc::Global;
use std::test::Fail;
use value_domain::Domain;

fn made<T: Drop>(answer: Result<T, NoMemory>) -> Result<T, Fail>
    ensures { IfOk result (λ r. IfOk answer (λ x. r ≡ x)) }
{
    match answer {
        Ok(value) => Ok(value),
        Err(_) => Err(Fail::from("no memory")),
    }
}

/// Four leaves as a word.
fn leaf_word(alloc: Global, net: &mut Net, from: u32) -> Result<Items<NodeId>, NoMemory>
    requires { from ≤ 4 }
    ensures are { IfOk result (λ r. AreNodes net.new r) }
    ensures long { IfOk result (λ r. length r ≡ 4) }
    ensures kept { Extends net.old net.new }
{
    let mut word = Items::new(alloc);
    for at in 0..4 {
        let leaf = net.push(Node::Leaf(from + at))?;
        word.push(leaf)?;
    }
    Ok(word)
}

/// Two words of four leaves each.
#[derive(Drop)]
struct LeafWords {
    domain: NetDomain,
    a: Items<NodeId>,
    b: Items<NodeId>,
}

fn inputs(alloc: Global) -> Result<LeafWords, NoMemory>
    ensures first { IfOk result (λ i. AreNodes i.domain.net i.a) }
    ensures second { IfOk result (λ i. AreNodes i.domain.net i.b) }
    ensures wide { IfOk result (λ i. length i.a ≡ 4) }
    ensures same { IfOk result (λ i. length i.b ≡ 4) }
{
    let mut net = Net::new(alloc)?;
    let a = leaf_word(alloc, &mut net, 0)?;
    let b = leaf_word(alloc, &mut net, 4)?;
    Ok(LeafWords {
        domain: NetDomain::new(alloc, net),
        a,
        b,
    })
}

/// Whether a word reads as a number where the two words of leaves read as two others.
fn reads(
    alloc: Global,
    net: &Net,
    word: &Items<NodeId>,
    a: u32,
    b: u32,
    expected: u32,
) -> Result<bool, NoMemory> {
    let mut leaves = vec![in alloc; false; 8]?;
    for at in 0..4 {
        leaves[at] = a >> at & 1 == 1;
        leaves[at + 4] = b >> at & 1 == 1;
    }
    if !net.leaves_below(leaves.len()) {
        return Ok(false);
    }
    let mut values = vec![in alloc; false; net.len()]?;
    net.eval_into(leaves.as_slice(), values.as_mut_slice());
    let mut rest = expected;
    for node in word.as_slice() {
        match values.as_slice().get(*node as usize) {
            Some(value) => {
                if *value != (rest % 2 == 1) {
                    return Ok(false);
                }
            }
            None => return Ok(false),
        }
        rest /= 2;
    }
    Ok(rest == 0)
}

/// Whether an operator of one operand gives a number.
#[tactic(auto, using(crate::proofs::TestLaws::four_fits))]
fn unary(alloc: Global, op: Unary, a: u32, expected: u32) -> Result<bool, NoMemory> {
    let mut input = inputs(alloc)?;
    let word = input.domain.unary(op, &input.a)?;
    reads(alloc, &input.domain.net, &word, a, 0, expected)
}

#[test]
fn operators_of_one_operand(rt: HostRuntime) -> Result<(), Fail> {
    let alloc = rt.alloc();
    let table = [
        (Unary::Negate, 6, 10),
        (Unary::Invert, 6, 9),
        (Unary::Not, 6, 0),
        (Unary::Not, 0, 1),
        (Unary::And, 15, 1),
        (Unary::And, 7, 0),
        (Unary::Nand, 14, 1),
        (Unary::Nand, 15, 0),
        (Unary::Or, 8, 1),
        (Unary::Or, 0, 0),
        (Unary::Nor, 1, 0),
        (Unary::Nor, 0, 1),
        (Unary::Xor, 11, 1),
        (Unary::Xor, 6, 0),
        (Unary::Xnor, 11, 0),
        (Unary::Xnor, 6, 1),
    ];
    for (op, a, expected) in table {
        assert!(rt; made(unary(alloc, op, a, expected))?);
    }
    Ok(())
}

/// Whether an operator of two operands gives a number.
#[tactic(auto, using(crate::proofs::TestLaws::fours_fit))]
fn binary(
    alloc: Global,
    op: Binary,
    signed: bool,
    a: u32,
    b: u32,
    expected: u32,
) -> Result<bool, NoMemory> {
    let mut input = inputs(alloc)?;
    let word = input.domain.binary(op, &input.a, &input.b, signed)?;
    reads(alloc, &input.domain.net, &word, a, b, expected)
}

#[test]
fn arithmetic_and_order(rt: HostRuntime) -> Result<(), Fail> {
    let alloc = rt.alloc();
    let table = [
        (Binary::Add, false, 6, 11, 1),
        (Binary::Sub, false, 6, 11, 11),
        (Binary::Mul, false, 6, 11, 2),
        (Binary::Less, false, 6, 11, 1),
        (Binary::Less, true, 6, 11, 0),
        (Binary::LessEqual, false, 6, 6, 1),
        (Binary::LessEqual, true, 6, 11, 0),
        (Binary::Greater, false, 6, 11, 0),
        (Binary::Greater, true, 6, 11, 1),
        (Binary::GreaterEqual, false, 6, 11, 0),
        (Binary::GreaterEqual, true, 9, 9, 1),
        (Binary::Equal, false, 6, 6, 1),
        (Binary::Equal, false, 6, 14, 0),
        (Binary::NotEqual, false, 6, 14, 1),
        (Binary::NotEqual, false, 6, 6, 0),
    ];
    for (op, signed, a, b, expected) in table {
        assert!(rt; made(binary(alloc, op, signed, a, b, expected))?);
    }
    Ok(())
}

#[test]
fn bits_and_shifts(rt: HostRuntime) -> Result<(), Fail> {
    let alloc = rt.alloc();
    let table = [
        (Binary::And, false, 6, 11, 2),
        (Binary::Or, false, 6, 11, 15),
        (Binary::Xor, false, 6, 11, 13),
        (Binary::Xnor, false, 6, 11, 2),
        (Binary::LogicAnd, false, 6, 8, 1),
        (Binary::LogicAnd, false, 0, 8, 0),
        (Binary::LogicOr, false, 0, 8, 1),
        (Binary::LogicOr, false, 0, 0, 0),
        (Binary::ShiftLeft, false, 11, 1, 6),
        (Binary::ShiftLeft, false, 11, 6, 0),
        (Binary::ShiftRight, true, 11, 2, 2),
        (Binary::ShiftRightSigned, false, 11, 2, 2),
        (Binary::ShiftRightSigned, true, 11, 2, 14),
        (Binary::ShiftRightSigned, true, 11, 9, 15),
    ];
    for (op, signed, a, b, expected) in table {
        assert!(rt; made(binary(alloc, op, signed, a, b, expected))?);
    }
    Ok(())
}

/// Whether a constant reads as its number.
fn constant(alloc: Global, value: u32) -> Result<bool, NoMemory> {
    let mut input = inputs(alloc)?;
    let bits = Bits::from_u128(alloc, value as u128, 5)?;
    let word = input.domain.constant(&bits)?;
    reads(alloc, &input.domain.net, &word, 0, 0, value)
}

/// Whether the word that a test chooses is as expected.
fn chosen(alloc: Global, a: u32, b: u32, expected: u32) -> Result<bool, NoMemory> {
    let mut input = inputs(alloc)?;
    let word = input.domain.mux(&input.b, &input.a, &input.b)?;
    reads(alloc, &input.domain.net, &word, a, b, expected)
}

/// Whether a word brought to a length is as expected.
fn extended(alloc: Global, len: u32, signed: bool, a: u32, expected: u32) -> Result<bool, NoMemory>
    requires some { 1 ≤ len }
    requires most { len ≤ 65536 }
{
    let mut input = inputs(alloc)?;
    let word = input.domain.extend(&input.a, len, signed)?;
    reads(alloc, &input.domain.net, &word, a, 0, expected)
}

/// Whether three bits from a place on are as expected.
fn selected(alloc: Global, low: i64, a: u32, expected: u32) -> Result<bool, NoMemory> {
    let mut input = inputs(alloc)?;
    let word = input.domain.select(&input.a, low, 3)?;
    reads(alloc, &input.domain.net, &word, a, 0, expected)
}

/// Whether a word over which another is written from a place on is as expected.
fn placed(alloc: Global, low: i64, a: u32, b: u32, expected: u32) -> Result<bool, NoMemory> {
    let mut input = inputs(alloc)?;
    let word = input.domain.place(&input.a, &input.b, low)?;
    reads(alloc, &input.domain.net, &word, a, b, expected)
}

/// Whether a copy reads as the word.
fn copied(alloc: Global, a: u32) -> Result<bool, NoMemory> {
    let mut input = inputs(alloc)?;
    let word = input.domain.copy(&input.a)?;
    reads(alloc, &input.domain.net, &word, a, 0, a)
}

#[test]
fn words_by_places(rt: HostRuntime) -> Result<(), Fail> {
    let alloc = rt.alloc();
    assert!(rt; made(constant(alloc, 19))?);
    assert!(rt; made(chosen(alloc, 6, 8, 6))?);
    assert!(rt; made(chosen(alloc, 6, 0, 0))?);
    assert!(rt; made(extended(alloc, 6, false, 10, 10))?);
    assert!(rt; made(extended(alloc, 6, true, 10, 58))?);
    assert!(rt; made(extended(alloc, 2, true, 10, 2))?);
    assert!(rt; made(selected(alloc, 2, 13, 3))?);
    assert!(rt; made(selected(alloc, -1, 13, 2))?);
    assert!(rt; made(placed(alloc, 2, 5, 11, 13))?);
    assert!(rt; made(placed(alloc, -2, 5, 11, 6))?);
    assert!(rt; made(copied(alloc, 9))?);
    Ok(())
}
