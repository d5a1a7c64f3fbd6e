ghost use Rattle.std.specs.Prelude.{◌≡◌, ◌≤◌, ◌+◌, length, IfOk};
ghost use Rattle.vl_tree.specs.declared.expressions.Expr.{size-Expr};
ghost use Rattle.vl_size.specs.Terms.{term};
ghost use Rattle.vl_size.specs.Chains.{chained, depth, IsNoBinary};

use crate::operators::{BinaryOperator, binary_operator};
use bits_core::NoMemory;
use std::alloc::Global;
use vl_tree::Expr;

/// An operator of a chain, and its right operand.
#[derive(Clone, Copy)]
pub struct Link<'e, 'f> {
    pub op: BinaryOperator,
    pub right: &'e Expr<'f>,
}

/// An expression as its first operand and what operators join to it from the left, the last operator first. So a walk over a long chain of operators takes
/// no stack for each of them.
#[derive(Drop)]
pub struct Chain<'e, 'f> {
    pub first: &'e Expr<'f>,
    pub links: Vec<Link<'e, 'f>>,
}

/// The chain that an expression is: without a link where it is no operator between operands. Linear in the chain.
pub fn chain_of<'e, 'f>(alloc: Global, expr: &'e Expr<'f>) -> Result<Chain<'e, 'f>, NoMemory>
    ensures whole { IfOk result (λ c. chained (term c.first.now) c.links.items ≡ term expr.now) }
    ensures operand { IfOk result (λ c. IsNoBinary c.first.now) }
    ensures bare { IfOk result (λ c. length c.links.items ≡ 0 → IsNoBinary expr.now) }
    ensures first { IfOk result (λ c. size-Expr c.first.now + length c.links.items ≤ size-Expr expr.now) }
    ensures others { IfOk result (λ c. depth c.links.items ≤ size-Expr expr.now) }
{
    let mut first = expr;
    let mut links = Vec::new(alloc);
    while let Expr::Binary { op, left, right } = first {
        links.push(Link {
            op: binary_operator(op),
            right: right.get(),
        })?;
        first = left.get();
    }
    Ok(Chain { first, links })
}
