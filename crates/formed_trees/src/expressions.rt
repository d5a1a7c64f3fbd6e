ghost use Rattle.std.specs.Prelude.{◌≡◌, ℕ, ◌*◌, ◌^◌, ◌≤◌, ◌&&◌, ◌==◌, nat_le, false, true, List, All, IfOk, IfSome, None, is_some, length, map, sum_by};
ghost use Rattle.design_core.specs.Formed.{binary_fits, has_length, is_narrow, is_vector, unary_fits};
ghost use Rattle.design_core.specs.declared.tree.DExpr.{DExpr};
ghost use Rattle.formed_trees.specs.Trees.{IsMade};
ghost use Rattle.formed_trees.specs.Makers.{fits_in, binary_length, binary_sign, binary_tree, concat_tree, constant_node, extend_node, local_node, long, mux_tree, repeat_tree, select_at_node, select_node, signal_node, tree, unary_length, unary_sign, unary_tree};

use bits_core::{Bits, Items, NoMemory};
use design_core::{Binary, DExpr, DNode, Unary};
use sqlite_items::Boxed;
use std::alloc::Global;

/// Whether a vector can have so many bits.
pub fn is_vector(n: u32) -> bool
    ensures { result ≡ is_vector n }
{
    1 <= n && n <= 65_536
}

/// Whether an index, a shift amount or an operand of arithmetic can have so many bits.
pub fn is_narrow(n: u32) -> bool
    ensures { result ≡ is_narrow n }
{
    n <= 128
}

fn unary_fits(op: Unary, n: u32, a: u32) -> bool
    ensures { result ≡ unary_fits op n a }
{
    match op {
        Unary::Negate => n == a && is_narrow(n),
        Unary::Invert => n == a,
        Unary::Not | Unary::And | Unary::Nand | Unary::Or | Unary::Nor | Unary::Xor | Unary::Xnor =>
            n == 1,
    }
}

fn binary_fits(op: Binary, n: u32, a: u32, b: u32) -> bool
    ensures { result ≡ binary_fits op n a b }
{
    match op {
        Binary::Add | Binary::Sub | Binary::Mul => n == a && n == b && is_narrow(n),
        Binary::And | Binary::Or | Binary::Xor | Binary::Xnor => n == a && n == b,
        Binary::Less | Binary::LessEqual | Binary::Greater | Binary::GreaterEqual => {
            n == 1 && a == b && is_narrow(a)
        }
        Binary::Equal | Binary::NotEqual => n == 1 && a == b,
        Binary::LogicAnd | Binary::LogicOr => n == 1,
        Binary::ShiftLeft | Binary::ShiftRight | Binary::ShiftRightSigned => {
            n == a && is_narrow(b)
        }
    }
}

/// Whether a value has at most so many bits.
pub fn fits(value: u128, length: u32) -> bool
    ensures { result ≡ fits_in value length }
{
    length >= 128 || value >> length == 0
}

// The length of a result, and whether it is signed.
fn unary_kind(op: Unary, a: &DExpr) -> (u32, bool)
    ensures { result ≡ (unary_length op a.now.length, unary_sign op a.now.signed) }
{
    match op {
        Unary::Negate | Unary::Invert => (a.length, a.signed),
        Unary::Not | Unary::And | Unary::Nand | Unary::Or | Unary::Nor | Unary::Xor | Unary::Xnor =>
            (1, false),
    }
}

fn binary_kind(op: Binary, a: &DExpr, b: &DExpr) -> (u32, bool)
    ensures { result ≡ (binary_length op a.now.length, binary_sign op a.now.signed b.now.signed) }
{
    match op {
        Binary::Add
        | Binary::Sub
        | Binary::Mul
        | Binary::And
        | Binary::Or
        | Binary::Xor
        | Binary::Xnor => (a.length, a.signed && b.signed),
        Binary::ShiftLeft | Binary::ShiftRight | Binary::ShiftRightSigned => (a.length, a.signed),
        Binary::Less
        | Binary::LessEqual
        | Binary::Greater
        | Binary::GreaterEqual
        | Binary::Equal
        | Binary::NotEqual
        | Binary::LogicAnd
        | Binary::LogicOr => (1, false),
    }
}

/// A constant of some bits.
pub fn constant(
    alloc: Global,
    length: u32,
    value: u128,
    signed: bool,
) -> Result<Option<DExpr>, NoMemory>
    ensures formed { IfOk result (λ made. IfSome made (λ e. (vs ls : List ℕ) → IsMade vs ls e)) }
    ensures tree { IfOk result (λ made. IfSome made (λ e. e ≡ tree length signed (constant_node length value))) }
    ensures fit { IfOk result (λ made. is_some made ≡ is_vector length) }
{
    if !is_vector(length) {
        return Ok(None);
    }
    let bits = Bits::from_u128(alloc, value, length as usize)?;
    Ok(Some(DExpr {
        length,
        signed,
        node: DNode::Const(bits),
    }))
}

/// A signal of this length.
pub fn signal(number: u32, length: u32, signed: bool) -> Option<DExpr>
    ensures formed { IfSome result (λ e. (vs ls : List ℕ) → has_length vs number length ≡ true → IsMade vs ls e) }
    ensures tree { IfSome result (λ e. e ≡ tree length signed (signal_node number)) }
    ensures fit { is_some result ≡ is_vector length }
{
    if !is_vector(length) {
        return None;
    }
    Some(DExpr {
        length,
        signed,
        node: DNode::Signal(number),
    })
}

/// A local of this length of the function round it.
pub fn local(number: u32, length: u32, signed: bool) -> Option<DExpr>
    ensures formed { IfSome result (λ e. (vs ls : List ℕ) → has_length ls number length ≡ true → IsMade vs ls e) }
    ensures tree { IfSome result (λ e. e ≡ tree length signed (local_node number)) }
    ensures fit { is_some result ≡ is_vector length }
{
    if !is_vector(length) {
        return None;
    }
    Some(DExpr {
        length,
        signed,
        node: DNode::Local(number),
    })
}

/// An operator of one operand, where the operand fits.
pub fn unary(alloc: Global, op: Unary, a: DExpr) -> Result<Option<DExpr>, NoMemory>
    ensures formed { IfOk result (λ made. IfSome made (λ e. (vs ls : List ℕ) → IsMade vs ls a → IsMade vs ls e)) }
    ensures tree { IfOk result (λ made. IfSome made (λ e. e ≡ unary_tree op a)) }
    ensures fit { IfOk result (λ made. is_some made ≡ is_vector (unary_length op a.length) && unary_fits op (unary_length op a.length) a.length) }
{
    let (length, signed) = unary_kind(op, &a);
    if !is_vector(length) || !unary_fits(op, length, a.length) {
        return Ok(None);
    }
    let a = Boxed::new(alloc, a)?;
    Ok(Some(DExpr {
        length,
        signed,
        node: DNode::Unary { op, a },
    }))
}

/// An operator of two operands, where the operands fit.
pub fn binary(alloc: Global, op: Binary, a: DExpr, b: DExpr) -> Result<Option<DExpr>, NoMemory>
    ensures formed { IfOk result (λ made. IfSome made (λ e. (vs ls : List ℕ) → IsMade vs ls a → IsMade vs ls b → IsMade vs ls e)) }
    ensures tree { IfOk result (λ made. IfSome made (λ e. e ≡ binary_tree op a b)) }
    ensures fit { IfOk result (λ made. is_some made ≡ is_vector (binary_length op a.length) && binary_fits op (binary_length op a.length) a.length b.length) }
{
    let (length, signed) = binary_kind(op, &a, &b);
    if !is_vector(length) || !binary_fits(op, length, a.length, b.length) {
        return Ok(None);
    }
    let a = Boxed::new(alloc, a)?;
    let b = Boxed::new(alloc, b)?;
    Ok(Some(DExpr {
        length,
        signed,
        node: DNode::Binary { op, a, b },
    }))
}

/// One of two expressions of one length, by a test.
pub fn mux(alloc: Global, c: DExpr, a: DExpr, b: DExpr) -> Result<Option<DExpr>, NoMemory>
    ensures formed { IfOk result (λ made. IfSome made (λ e. (vs ls : List ℕ) → IsMade vs ls c → IsMade vs ls a → IsMade vs ls b → IsMade vs ls e)) }
    ensures tree { IfOk result (λ made. IfSome made (λ e. e ≡ mux_tree c a b)) }
    ensures fit { IfOk result (λ made. is_some made ≡ is_vector a.length && (b.length == a.length)) }
{
    let length = a.length;
    let signed = a.signed && b.signed;
    if !is_vector(length) || b.length != length {
        return Ok(None);
    }
    let c = Boxed::new(alloc, c)?;
    let a = Boxed::new(alloc, a)?;
    let b = Boxed::new(alloc, b)?;
    Ok(Some(DExpr {
        length,
        signed,
        node: DNode::Mux { c, a, b },
    }))
}

/// An expression brought to a length, no shorter than its own.
pub fn extend(
    alloc: Global,
    a: DExpr,
    length: u32,
    by_sign: bool,
) -> Result<Option<DExpr>, NoMemory>
    ensures formed { IfOk result (λ made. IfSome made (λ e. (vs ls : List ℕ) → IsMade vs ls a → IsMade vs ls e)) }
    ensures tree { IfOk result (λ made. IfSome made (λ e. e ≡ tree length a.signed (extend_node a by_sign))) }
    ensures fit { IfOk result (λ made. is_some made ≡ is_vector length && nat_le a.length length) }
{
    let signed = a.signed;
    if !is_vector(length) || a.length > length {
        return Ok(None);
    }
    let a = Boxed::new(alloc, a)?;
    Ok(Some(DExpr {
        length,
        signed,
        node: DNode::Extend { a, by_sign },
    }))
}

/// An expression that is read with or without sign; its bits stay as they are (IEEE 1364-2005, 5.5).
pub fn with_sign(alloc: Global, a: DExpr, signed: bool) -> Result<Option<DExpr>, NoMemory>
    ensures formed { IfOk result (λ made. IfSome made (λ e. (vs ls : List ℕ) → IsMade vs ls a → IsMade vs ls e)) }
    ensures tree { IfOk result (λ made. IfSome made (λ e. e ≡ tree a.length signed (extend_node a signed))) }
    ensures fit { IfOk result (λ made. is_some made ≡ is_vector a.length) }
{
    let length = a.length;
    if !is_vector(length) {
        return Ok(None);
    }
    let a = Boxed::new(alloc, a)?;
    Ok(Some(DExpr {
        length,
        signed,
        node: DNode::Extend { a, by_sign: signed },
    }))
}

/// Bits of an expression from a place on.
pub fn select(alloc: Global, base: DExpr, low: i64, length: u32) -> Result<Option<DExpr>, NoMemory>
    ensures formed { IfOk result (λ made. IfSome made (λ e. (vs ls : List ℕ) → IsMade vs ls base → IsMade vs ls e)) }
    ensures tree { IfOk result (λ made. IfSome made (λ e. e ≡ tree length false (select_node base low))) }
    ensures fit { IfOk result (λ made. is_some made ≡ is_vector length) }
{
    if !is_vector(length) {
        return Ok(None);
    }
    let base = Boxed::new(alloc, base)?;
    Ok(Some(DExpr {
        length,
        signed: false,
        node: DNode::Select { base, low },
    }))
}

/// Bits of an expression from a place on that an index gives.
pub fn select_at(
    alloc: Global,
    base: DExpr,
    index: DExpr,
    offset: i64,
    down: bool,
    length: u32,
) -> Result<Option<DExpr>, NoMemory>
    ensures formed { IfOk result (λ made. IfSome made (λ e. (vs ls : List ℕ) → IsMade vs ls base → IsMade vs ls index → IsMade vs ls e)) }
    ensures tree { IfOk result (λ made. IfSome made (λ e. e ≡ tree length false (select_at_node base index offset down))) }
    ensures fit { IfOk result (λ made. is_some made ≡ is_vector length && is_narrow index.length) }
{
    if !is_vector(length) || !is_narrow(index.length) {
        return Ok(None);
    }
    let base = Boxed::new(alloc, base)?;
    let index = Boxed::new(alloc, index)?;
    Ok(Some(DExpr {
        length,
        signed: false,
        node: DNode::SelectAt {
            base,
            index,
            offset,
            down,
        },
    }))
}

/// An expression many times.
pub fn repeat(alloc: Global, count: u32, part: DExpr) -> Result<Option<DExpr>, NoMemory>
    ensures formed { IfOk result (λ made. IfSome made (λ e. (vs ls : List ℕ) → IsMade vs ls part → IsMade vs ls e)) }
    ensures tree { IfOk result (λ made. IfSome made (λ e. e ≡ repeat_tree count part)) }
    ensures fit { IfOk result (λ made. is_some made ≡ is_vector (count * part.length)) }
{
    let Some(length) = count.checked_mul(part.length) else {
        return Ok(None);
    };
    if !is_vector(length) {
        return Ok(None);
    }
    let part = Boxed::new(alloc, part)?;
    Ok(Some(DExpr {
        length,
        signed: false,
        node: DNode::Repeat { count, part },
    }))
}

fn total(parts: &[DExpr]) -> Option<u32>
    ensures total { IfSome result (λ n. n ≡ long parts.now) }
    ensures none { result ≡ None → 2 ^ 32 ≤ long parts.now }
{
    let mut total = 0u32;
    for part in parts {
        total = total.checked_add(part.length)?;
    }
    Some(total)
}

/// Expressions side by side, the first the highest.
pub fn concat(parts: Vec<DExpr>) -> Option<DExpr>
    ensures formed { IfSome result (λ e. (vs ls : List ℕ) → All (IsMade vs ls) parts.items → IsMade vs ls e) }
    ensures tree { IfSome result (λ e. e ≡ concat_tree parts.items) }
    ensures fit { is_some result ≡ is_vector (long parts.items) }
{
    let length = total(parts.as_slice())?;
    if !is_vector(length) {
        return None;
    }
    Some(DExpr {
        length,
        signed: false,
        node: DNode::Concat(Items::of(parts)),
    })
}
