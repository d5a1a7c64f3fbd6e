ghost use Rattle.std.specs.Prelude.{◌≡◌, max};
ghost use Rattle.design_core.specs.Formed as spec;

use design_core::{Binary, Unary};

/// What an operator weighs beside its operand, which has so many bits.
pub fn unary_weight(op: Unary, a: u32) -> u128
    ensures { result ≡ spec.unary_weight op a }
{
    match op {
        Unary::Negate => 8 * u128::from(a),
        _ => u128::from(a),
    }
}

fn longer(a: u128, b: u128) -> u128
    ensures { result ≡ max a b }
{
    if a < b { b } else { a }
}

/// What an operator weighs beside its operands, which have so many bits: 8 a bit for sums, differences and comparisons by size, 8 times the square for
/// products, 17 a bit and the amount's length for shifts, else 1 a bit.
pub fn binary_weight(op: Binary, a: u32, b: u32) -> u128
    ensures { result ≡ spec.binary_weight op a b }
{
    let (a, b) = (u128::from(a), u128::from(b));
    match op {
        Binary::Add | Binary::Sub => 8 * a,
        Binary::Mul => 8 * a * a,
        Binary::Less | Binary::LessEqual | Binary::Greater | Binary::GreaterEqual => 8 * a,
        Binary::And | Binary::Or | Binary::Xor | Binary::Xnor => a,
        Binary::Equal | Binary::NotEqual => a,
        Binary::LogicAnd | Binary::LogicOr => longer(a, b),
        Binary::ShiftLeft | Binary::ShiftRight | Binary::ShiftRightSigned => 17 * a + b,
    }
}

/// What a read or a write weighs at a place of a vector that is known only when it runs.
pub fn variable_weight(vector: u32, index: u32) -> u128
    ensures { result ≡ spec.variable_weight vector index }
{
    17 * u128::from(vector) + u128::from(index)
}
