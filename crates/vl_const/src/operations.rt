ghost use Rattle.std.specs.Prelude.{◌≡◌, ◌≤◌, ◌+◌, length, IfOk};
ghost use Rattle.vl_tree.specs.declared.expressions.Expr.{size-Expr};
ghost use Rattle.vl_size.specs.Chains.{IsNoBinary};
ghost use Rattle.vl_size.specs.Terms.{term};
ghost use Rattle.vl_const.specs.Operations.{MeansAs, depth};

use crate::streams::{inside, part_context};
use bits_core::NoMemory;
use std::alloc::Global;
use vl_size::{BinaryOperator, Size, Sizing, binary_operator};
use vl_tree::Expr;

/// An operator with its right operand, the sizings that begin with its own, and its context.
#[derive(Clone, Copy)]
pub struct Operation<'e, 'f, 's> {
    pub op: BinaryOperator,
    pub right: &'e Expr<'f>,
    pub sizings: &'s [Sizing],
    pub context: Size,
}

/// An expression in its context as its first operand, and what operators join to it from the left, the last operator first.
#[derive(Drop)]
pub struct Operations<'e, 'f, 's> {
    pub first: &'e Expr<'f>,
    pub sizings: &'s [Sizing],
    pub context: Size,
    pub steps: Vec<Operation<'e, 'f, 's>>,
}

/// Down along the left operands of operators, each in its context. Linear in the chain.
pub fn operations_of<'e, 'f, 's>(
    alloc: Global,
    expr: &'e Expr<'f>,
    sizings: &'s [Sizing],
    context: Size,
) -> Result<Operations<'e, 'f, 's>, NoMemory>
    ensures whole { IfOk result (λ o. MeansAs o (term expr.now) sizings.now context) }
    ensures operand { IfOk result (λ o. IsNoBinary o.first.now) }
    ensures bare { IfOk result (λ o. length o.steps.items ≡ 0 → IsNoBinary expr.now) }
    ensures first { IfOk result (λ o. size-Expr o.first.now + length o.steps.items ≤ size-Expr expr.now) }
    ensures others { IfOk result (λ o. depth o.steps.items ≤ size-Expr expr.now) }
{
    let mut first = expr;
    let mut inner = sizings;
    let mut outer = context;
    let mut steps = Vec::new(alloc);
    while let Expr::Binary { op, left, right } = first {
        steps.push(Operation {
            op: binary_operator(op),
            right: right.get(),
            sizings: inner,
            context: outer,
        })?;
        let parts = inside(inner);
        outer = part_context(inner, outer, true, parts);
        inner = parts;
        first = left.get();
    }
    Ok(Operations {
        first,
        sizings: inner,
        context: outer,
        steps,
    })
}
