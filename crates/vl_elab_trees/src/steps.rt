ghost use Rattle.std.specs.Prelude.{◌≡◌, ◌≤◌, ◌+◌, length, IfOk};
ghost use Rattle.vl_tree.specs.declared.expressions.Expr.{size-Expr};
ghost use Rattle.vl_size.specs.Terms.{term};
ghost use Rattle.vl_elab_trees.specs.Steps.{IsOperand, MeansAs, depth};

use crate::nodes::{Form, form_of};
use bits_core::NoMemory;
use std::alloc::Global;
use vl_const::streams::{inside, part_context};
use vl_size::{Size, Sizing, binary_operator};
use vl_tree::Expr;

/// Such an operator with its right operand, the sizings that begin with its own, and its context.
#[derive(Clone, Copy)]
pub struct Step<'e, 'f, 's> {
    pub form: Form,
    pub right: &'e Expr<'f>,
    pub sizings: &'s [Sizing],
    pub context: Size,
}

/// An expression in its context as its first operand, and what operators join to it from the left, the last operator first.
#[derive(Drop)]
pub struct Steps<'e, 'f, 's> {
    pub first: &'e Expr<'f>,
    pub sizings: &'s [Sizing],
    pub context: Size,
    pub steps: Vec<Step<'e, 'f, 's>>,
}

/// Down along the left operands of operators, each in its context. Linear in the chain.
pub fn steps_of<'e, 'f, 's>(
    alloc: Global,
    expr: &'e Expr<'f>,
    sizings: &'s [Sizing],
    context: Size,
) -> Result<Steps<'e, 'f, 's>, NoMemory>
    ensures whole { IfOk result (λ o. MeansAs o (term expr.now) sizings.now context) }
    ensures operand { IfOk result (λ o. IsOperand o.first.now) }
    ensures bare { IfOk result (λ o. length o.steps.items ≡ 0 → IsOperand expr.now) }
    ensures first { IfOk result (λ o. size-Expr o.first.now + length o.steps.items ≤ size-Expr expr.now) }
    ensures others { IfOk result (λ o. depth o.steps.items ≤ size-Expr expr.now) }
{
    let mut first = expr;
    let mut inner = sizings;
    let mut outer = context;
    let mut steps = Vec::new(alloc);
    while let Expr::Binary { op, left, right } = first {
        let form = match form_of(binary_operator(op)) {
            Some(form) => form,
            None => {
                return Ok(Steps {
                    first,
                    sizings: inner,
                    context: outer,
                    steps,
                });
            }
        };
        steps.push(Step {
            form,
            right: right.get(),
            sizings: inner,
            context: outer,
        })?;
        let parts = inside(inner);
        outer = part_context(inner, outer, true, parts);
        inner = parts;
        first = left.get();
    }
    Ok(Steps {
        first,
        sizings: inner,
        context: outer,
        steps,
    })
}
