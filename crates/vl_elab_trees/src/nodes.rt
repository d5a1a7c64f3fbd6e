ghost use Rattle.std.specs.Prelude.{◌≡◌, ◌++◌, IfOk};
ghost use Rattle.design_core.specs.declared.tree.DNode.{DNode};
ghost use Rattle.vl_elab_trees.specs.Nodes as spec;

use bits_core::{Bits, NoMemory};
use design_core::{Binary, DExpr, DExprList, DNode, Unary};
use sqlite_items::Boxed;
use std::alloc::Global;
use vl_size::{BinaryOperator, Size, UnaryOperator, capped};

/// What an operator between operands is in a design.
#[derive(Clone, Copy, Debug, PartialEq, Eq)]
pub enum Form {
    /// It has the length of its context.
    Wide(Binary),
    /// It gives one bit.
    Bit(Binary),
}

/// What an operator before an operand is in a design.
#[derive(Clone, Copy, Debug, PartialEq, Eq)]
pub enum Before {
    Nothing,
    Wide(Unary),
    Bit(Unary),
}

const BIT: Size = Size {
    length: 1,
    signed: false,
};

pub fn at(size: Size, node: DNode) -> DExpr
    ensures { result ≡ spec.at size node }
{
    DExpr {
        length: size.length,
        signed: size.signed,
        node,
    }
}

/// An expression brought to a context.
pub fn brought(alloc: Global, context: Size, e: DExpr) -> Result<DExpr, NoMemory>
    ensures { IfOk result (λ made. made ≡ spec.brought context e) }
{
    if e.length == context.length && e.signed == context.signed {
        return Ok(e);
    }
    let by_sign = context.signed;
    let a = Boxed::new(alloc, e)?;
    Ok(at(context, DNode::Extend { a, by_sign }))
}

/// A node that has a size of its own, brought to a context.
pub fn apart(alloc: Global, own: Size, context: Size, node: DNode) -> Result<DExpr, NoMemory>
    ensures { IfOk result (λ made. made ≡ spec.apart own context node) }
{
    brought(alloc, context, at(own, node))
}

pub fn constant(context: Size, value: Bits) -> DExpr
    ensures { result ≡ spec.constant context value }
{
    at(context, DNode::Const(value))
}

/// What an operator is in a design; none where its operands are constants, and so is it.
pub fn form_of(op: BinaryOperator) -> Option<Form>
    ensures { result ≡ spec.form_of op }
{
    match op {
        BinaryOperator::Add => Some(Form::Wide(Binary::Add)),
        BinaryOperator::Subtract => Some(Form::Wide(Binary::Sub)),
        BinaryOperator::Multiply => Some(Form::Wide(Binary::Mul)),
        BinaryOperator::Divide | BinaryOperator::Remainder | BinaryOperator::Power => None,
        BinaryOperator::And => Some(Form::Wide(Binary::And)),
        BinaryOperator::Or => Some(Form::Wide(Binary::Or)),
        BinaryOperator::Xor => Some(Form::Wide(Binary::Xor)),
        BinaryOperator::Xnor => Some(Form::Wide(Binary::Xnor)),
        BinaryOperator::Less => Some(Form::Bit(Binary::Less)),
        BinaryOperator::LessEqual => Some(Form::Bit(Binary::LessEqual)),
        BinaryOperator::Greater => Some(Form::Bit(Binary::Greater)),
        BinaryOperator::GreaterEqual => Some(Form::Bit(Binary::GreaterEqual)),
        BinaryOperator::Equal => Some(Form::Bit(Binary::Equal)),
        BinaryOperator::NotEqual => Some(Form::Bit(Binary::NotEqual)),
        BinaryOperator::LogicAnd => Some(Form::Bit(Binary::LogicAnd)),
        BinaryOperator::LogicOr => Some(Form::Bit(Binary::LogicOr)),
        BinaryOperator::ShiftLeft | BinaryOperator::ShiftLeftSigned => {
            Some(Form::Wide(Binary::ShiftLeft))
        }
        BinaryOperator::ShiftRight => Some(Form::Wide(Binary::ShiftRight)),
        BinaryOperator::ShiftRightSigned => Some(Form::Wide(Binary::ShiftRightSigned)),
    }
}

pub fn before_of(op: UnaryOperator) -> Before
    ensures { result ≡ spec.before_of op }
{
    match op {
        UnaryOperator::Plus => Before::Nothing,
        UnaryOperator::Minus => Before::Wide(Unary::Negate),
        UnaryOperator::Invert => Before::Wide(Unary::Invert),
        UnaryOperator::Not => Before::Bit(Unary::Not),
        UnaryOperator::And => Before::Bit(Unary::And),
        UnaryOperator::Nand => Before::Bit(Unary::Nand),
        UnaryOperator::Or => Before::Bit(Unary::Or),
        UnaryOperator::Nor => Before::Bit(Unary::Nor),
        UnaryOperator::Xor => Before::Bit(Unary::Xor),
        UnaryOperator::Xnor => Before::Bit(Unary::Xnor),
    }
}

pub fn unary_made(alloc: Global, before: Before, context: Size, a: DExpr) -> Result<DExpr, NoMemory>
    ensures { IfOk result (λ made. made ≡ spec.unary_made before context a) }
{
    match before {
        Before::Nothing => Ok(a),
        Before::Wide(op) => {
            let a = Boxed::new(alloc, a)?;
            Ok(at(context, DNode::Unary { op, a }))
        }
        Before::Bit(op) => {
            let a = Boxed::new(alloc, a)?;
            apart(alloc, BIT, context, DNode::Unary { op, a })
        }
    }
}

pub fn operated(
    alloc: Global,
    form: Form,
    context: Size,
    a: DExpr,
    b: DExpr,
) -> Result<DExpr, NoMemory>
    ensures { IfOk result (λ made. made ≡ spec.operated form context a b) }
{
    let a = Boxed::new(alloc, a)?;
    let b = Boxed::new(alloc, b)?;
    match form {
        Form::Wide(op) => Ok(at(context, DNode::Binary { op, a, b })),
        Form::Bit(op) => apart(alloc, BIT, context, DNode::Binary { op, a, b }),
    }
}

pub fn choice_made(
    alloc: Global,
    context: Size,
    test: DExpr,
    yes: DExpr,
    no: DExpr,
) -> Result<DExpr, NoMemory>
    ensures { IfOk result (λ made. made ≡ spec.choice_made context test yes no) }
{
    let c = Boxed::new(alloc, test)?;
    let a = Boxed::new(alloc, yes)?;
    let b = Boxed::new(alloc, no)?;
    Ok(at(context, DNode::Mux { c, a, b }))
}

/// Puts a part of a concatenation behind others, unless it has no bits.
pub fn keep(mut parts: DExprList, length: u32, e: DExpr) -> Result<DExprList, NoMemory>
    ensures { IfOk result (λ all. all ≡ parts ++ spec.kept length e) }
{
    if length != 0 {
        parts.push(e)?;
    }
    Ok(parts)
}

fn copies(count: Option<i64>) -> u32
    ensures { result ≡ spec.copies count }
{
    match count {
        None => 1,
        Some(number) => { if number < 0 { 1 } else { capped(number as u64) } }
    }
}

pub fn repeated(
    alloc: Global,
    count: Option<i64>,
    length: u32,
    parts: DExprList,
) -> Result<DNode, NoMemory>
    ensures { IfOk result (λ made. made ≡ spec.repeated count length parts) }
{
    let size = Size {
        length,
        signed: false,
    };
    let part = Boxed::new(alloc, at(size, DNode::Concat(parts)))?;
    Ok(DNode::Repeat {
        count: copies(count),
        part,
    })
}
