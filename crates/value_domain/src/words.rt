ghost use Rattle.std.specs.Prelude.{◌≡◌, ◌≤◌, false, IfOk, length};
ghost use Rattle.bits_core.specs.Numbers.{difference_bits, number, product_bits, sum_bits};
ghost use Rattle.bits_core.specs.Places.{exclusive_or, zip_with};
ghost use Rattle.bits_core.specs.Shifted.{shifted};
ghost use Rattle.design_core.specs.Operators.{binary_value, unary_value};
ghost use Rattle.value_domain.specs.Lengths.{FitsBinary};

use crate::operators::{all_set, amount, inverted, negative, odd_set, one, same, some_set};
use bits_core::{Bits, NoMemory, Shift};
use design_core::{Binary, Unary};
use std::alloc::Global;

/// The operator on one bit list.
pub fn unary_bits(alloc: Global, op: Unary, a: &Bits) -> Result<Bits, NoMemory>
    ensures { IfOk result (λ r. r ≡ unary_value op a.now) }
{
    match op {
        Unary::Negate => negative(alloc, a),
        Unary::Invert => inverted(alloc, a),
        Unary::Not => one(alloc, !some_set(a)),
        Unary::And => one(alloc, all_set(a)),
        Unary::Nand => one(alloc, !all_set(a)),
        Unary::Or => one(alloc, some_set(a)),
        Unary::Nor => one(alloc, !some_set(a)),
        Unary::Xor => one(alloc, odd_set(a)),
        Unary::Xnor => one(alloc, !odd_set(a)),
    }
}

fn sum(alloc: Global, a: &Bits, b: &Bits) -> Result<Bits, NoMemory>
    requires { length a.now ≡ length b.now }
    ensures { IfOk result (λ r. r ≡ sum_bits a.now b.now) }
{
    let mut out = Bits::zeros(alloc, a.len())?;
    Bits::add_into(a, b, &mut out);
    Ok(out)
}

fn difference(alloc: Global, a: &Bits, b: &Bits) -> Result<Bits, NoMemory>
    requires { length a.now ≡ length b.now }
    ensures { IfOk result (λ r. r ≡ difference_bits a.now b.now) }
{
    let mut out = Bits::zeros(alloc, a.len())?;
    Bits::sub_into(a, b, &mut out);
    Ok(out)
}

fn product(alloc: Global, a: &Bits, b: &Bits) -> Result<Bits, NoMemory>
    requires { length a.now ≡ length b.now }
    ensures { IfOk result (λ r. r ≡ product_bits a.now b.now) }
{
    let mut out = Bits::zeros(alloc, a.len())?;
    Bits::mul_into(a, b, &mut out);
    Ok(out)
}

fn conjunction(alloc: Global, a: &Bits, b: &Bits) -> Result<Bits, NoMemory>
    requires { length a.now ≡ length b.now }
    ensures { IfOk result (λ r. r ≡ binary_value Binary.And false a.now b.now) }
{
    let mut out = Bits::zeros(alloc, a.len())?;
    Bits::and_into(a, b, &mut out);
    Ok(out)
}

fn disjunction(alloc: Global, a: &Bits, b: &Bits) -> Result<Bits, NoMemory>
    requires { length a.now ≡ length b.now }
    ensures { IfOk result (λ r. r ≡ binary_value Binary.Or false a.now b.now) }
{
    let mut out = Bits::zeros(alloc, a.len())?;
    Bits::or_into(a, b, &mut out);
    Ok(out)
}

fn exclusion(alloc: Global, a: &Bits, b: &Bits) -> Result<Bits, NoMemory>
    requires { length a.now ≡ length b.now }
    ensures { IfOk result (λ r. r ≡ zip_with exclusive_or a.now b.now) }
{
    let mut out = Bits::zeros(alloc, a.len())?;
    Bits::xor_into(a, b, &mut out);
    Ok(out)
}

fn equivalence(alloc: Global, a: &Bits, b: &Bits) -> Result<Bits, NoMemory>
    requires { length a.now ≡ length b.now }
    ensures { IfOk result (λ r. r ≡ binary_value Binary.Xnor false a.now b.now) }
{
    let unlike = exclusion(alloc, a, b)?;
    inverted(alloc, &unlike)
}

/// The bits moved by the number that other bits stand for.
fn moved(alloc: Global, kind: Shift, a: &Bits, b: &Bits) -> Result<Bits, NoMemory>
    requires { length b.now ≤ 128 }
    ensures { IfOk result (λ r. r ≡ shifted kind (number b.now) a.now) }
{
    let by = amount(b);
    let mut out = Bits::zeros(alloc, a.len())?;
    Bits::shift_into(kind, a, by, &mut out);
    Ok(out)
}

/// The operator on two bit lists.
pub fn binary_bits(
    alloc: Global,
    op: Binary,
    a: &Bits,
    b: &Bits,
    signed: bool,
) -> Result<Bits, NoMemory>
    requires { FitsBinary op (length a.now) (length b.now) }
    ensures { IfOk result (λ r. r ≡ binary_value op signed a.now b.now) }
{
    match op {
        Binary::Add => sum(alloc, a, b),
        Binary::Sub => difference(alloc, a, b),
        Binary::Mul => product(alloc, a, b),
        Binary::And => conjunction(alloc, a, b),
        Binary::Or => disjunction(alloc, a, b),
        Binary::Xor => exclusion(alloc, a, b),
        Binary::Xnor => equivalence(alloc, a, b),
        Binary::Less => one(alloc, Bits::less(a, b, signed)),
        Binary::LessEqual => one(alloc, !Bits::less(b, a, signed)),
        Binary::Greater => one(alloc, Bits::less(b, a, signed)),
        Binary::GreaterEqual => one(alloc, !Bits::less(a, b, signed)),
        Binary::Equal => one(alloc, same(a, b)),
        Binary::NotEqual => one(alloc, !same(a, b)),
        Binary::LogicAnd => one(alloc, some_set(a) & some_set(b)),
        Binary::LogicOr => one(alloc, some_set(a) | some_set(b)),
        Binary::ShiftLeft => moved(alloc, Shift::Left, a, b),
        Binary::ShiftRight => moved(alloc, Shift::Right, a, b),
        Binary::ShiftRightSigned if signed => moved(alloc, Shift::RightSigned, a, b),
        Binary::ShiftRightSigned => moved(alloc, Shift::Right, a, b),
    }
}
