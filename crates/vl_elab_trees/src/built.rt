ghost use Rattle.std.specs.Prelude.{◌≡◌, IfOk, map, Ok};
ghost use Rattle.vl_const.specs.Streams.{first_node as first_node_of, own_context as own_context_of};
ghost use Rattle.vl_size.specs.Terms.{term, pick_term, terms, picks};
ghost use Rattle.vl_elab_trees.specs.Built as spec;
ghost use Rattle.vl_elab_trees.specs.Scopes.{valued as valued_in};
ghost use Rattle.vl_elab_trees.specs.Steps.{IsOperand};

use crate::nodes::{
    apart, before_of, brought, choice_made, constant, keep, operated, repeated, unary_made,
};
use crate::places::{Index, selected};
use crate::scope::{Known, Scope};
use crate::steps::{Steps, steps_of};
use bits_core::{Bits, Items, NoMemory};
use design_core::{DExpr, DExprList, DNode};
use std::alloc::Global;
use vl_const::Way;
use vl_const::streams::{behind, first_node, inside, own_context, own_size, part_context};
use vl_const::worth::worth;
use vl_size::{
    Const, Size, Sizing, SystemFunction, behind_next, next_value, system_function, total,
    unary_operator, whole, width_of,
};
use vl_tree::{Expr, Select, token_name};

pub type Found<'c, T> = Result<(T, &'c [Const]), NoMemory>;

/// The value of a constant expression in a context.
fn valued<'c, S: Scope>(
    alloc: Global,
    scope: &S,
    expr: &Expr,
    sizings: &[Sizing],
    context: Size,
    values: &'c [Const],
) -> Found<'c, Bits>
    ensures { IfOk result (λ r. (r.0, r.1.now) ≡ valued_in (S.meaning scope.now) (term expr.now) sizings.now context values.now) }
{
    let known = Known { scope };
    let (a, (rest, _)) = worth(alloc, &known, expr, sizings, context, (values, &[]))?;
    Ok((a.value, rest))
}

fn constant_in<'c, S: Scope>(
    alloc: Global,
    scope: &S,
    expr: &Expr,
    sizings: &[Sizing],
    context: Size,
    values: &'c [Const],
) -> Found<'c, DExpr>
    ensures { IfOk result (λ r. (r.0, r.1.now) ≡ spec.constant_in (S.meaning scope.now) (term expr.now) sizings.now context values.now) }
{
    let (value, rest) = valued(alloc, scope, expr, sizings, context, values)?;
    Ok((constant(context, value), rest))
}

/// An expression in a context, and the values that it has not used. Linear in the tree, but for look-ups; the operators of a chain from the left take no stack.
#[cycle(built)]
pub fn built<'c, S: Scope>(
    alloc: Global,
    scope: &S,
    expr: &Expr,
    sizings: &[Sizing],
    context: Size,
    values: &'c [Const],
) -> Found<'c, DExpr>
    ensures { IfOk result (λ r. (r.0, r.1.now) ≡ spec.built (S.meaning scope.now) (term expr.now) sizings.now context values.now) }
{
    let Steps {
        first,
        sizings: inner,
        context: outer,
        mut steps,
    } = steps_of(alloc, expr, sizings, context)?;
    if steps.len() == 0 {
        return built_operand(alloc, scope, expr, sizings, context, values);
    }
    let (mut all, mut rest) = built_operand(alloc, scope, first, inner, outer, values)?;
    while let Some(step) = steps.pop() {
        let second = behind(inside(step.sizings));
        let outer = part_context(step.sizings, step.context, false, second);
        let (right, left) = built(alloc, scope, step.right, second, outer, rest)?;
        all = operated(alloc, step.form, step.context, all, right)?;
        rest = left;
    }
    Ok((all, rest))
}

/// An expression that is no operator on operands, or one on constants.
#[cycle(built)]
fn built_operand<'c, S: Scope>(
    alloc: Global,
    scope: &S,
    expr: &Expr,
    sizings: &[Sizing],
    context: Size,
    values: &'c [Const],
) -> Found<'c, DExpr>
    requires { IsOperand expr.now }
    ensures { IfOk result (λ r. (r.0, r.1.now) ≡ spec.built (S.meaning scope.now) (term expr.now) sizings.now context values.now) }
{
    match expr {
        Expr::Number(_) => constant_in(alloc, scope, expr, sizings, context, values),
        Expr::Name { name, selects } => {
            let parts = inside(sizings);
            let (node, rest) = picked(
                alloc,
                scope,
                token_name(name),
                selects.as_slice(),
                parts,
                values,
            )?;
            Ok((apart(alloc, own_size(sizings), context, node)?, rest))
        }
        Expr::Call { name, arguments } => {
            let parts = inside(sizings);
            let (parts, rest) = builts(alloc, scope, arguments.as_slice(), parts, values)?;
            let node = scope.called(alloc, token_name(name), parts)?;
            Ok((apart(alloc, own_size(sizings), context, node)?, rest))
        }
        Expr::System { name, argument } => match system_function(name) {
            SystemFunction::CeilingLog => constant_in(alloc, scope, expr, sizings, context, values),
            SystemFunction::Signed | SystemFunction::Unsigned => {
                let parts = inside(sizings);
                let (a, rest) = built(
                    alloc,
                    scope,
                    argument.get(),
                    parts,
                    own_context(parts),
                    values,
                )?;
                Ok((brought(alloc, context, a)?, rest))
            }
        },
        Expr::Concat(parts) => {
            let (parts, rest) = builts(alloc, scope, parts.as_slice(), inside(sizings), values)?;
            let node = DNode::Concat(parts);
            Ok((apart(alloc, own_size(sizings), context, node)?, rest))
        }
        Expr::Repeat { parts, .. } => {
            let inner = inside(sizings);
            let count = next_value(values);
            let (parts, rest) = builts(alloc, scope, parts.as_slice(), inner, behind_next(values))?;
            let node = repeated(alloc, count, total(inner), parts)?;
            Ok((apart(alloc, own_size(sizings), context, node)?, rest))
        }
        Expr::Group(inner) => built(alloc, scope, inner.get(), inside(sizings), context, values),
        Expr::Unary { op, operand } => {
            let parts = inside(sizings);
            let outer = part_context(sizings, context, true, parts);
            let (a, rest) = built(alloc, scope, operand.get(), parts, outer, values)?;
            let before = before_of(unary_operator(op));
            Ok((unary_made(alloc, before, context, a)?, rest))
        }
        Expr::Binary { .. } => constant_in(alloc, scope, expr, sizings, context, values),
        Expr::Choice { test, yes, no } => {
            let first = inside(sizings);
            let outer = part_context(sizings, context, true, first);
            let (test, rest) = built(alloc, scope, test.get(), first, outer, values)?;
            let second = behind(first);
            let outer = part_context(sizings, context, false, second);
            let (yes, rest) = built(alloc, scope, yes.get(), second, outer, rest)?;
            let third = behind(second);
            let outer = part_context(sizings, context, false, third);
            let (no, rest) = built(alloc, scope, no.get(), third, outer, rest)?;
            Ok((choice_made(alloc, context, test, yes, no)?, rest))
        }
    }
}

#[cycle(built)]
fn picked<'c, S: Scope>(
    alloc: Global,
    scope: &S,
    name: &[u8],
    selects: &[Select],
    sizings: &[Sizing],
    values: &'c [Const],
) -> Found<'c, DNode>
    ensures { IfOk result (λ r. (r.0, r.1.now) ≡ spec.picked (S.meaning scope.now) name.now ((S.meaning scope.now).known.look name.now) (picks (map pick_term selects.now)) sizings.now values.now) }
{
    let leaf = scope.leaf(alloc, name)?;
    match selects {
        [] => Ok((leaf, values)),
        [select, ..] => {
            let (place, rest) = aimed(alloc, scope, select, sizings, values)?;
            Ok((selected(alloc, leaf, scope.entry(name), place)?, rest))
        }
    }
}

fn fixed_in<'c, S: Scope>(
    alloc: Global,
    scope: &S,
    index: &Expr,
    sizings: &[Sizing],
    values: &'c [Const],
) -> Found<'c, Index>
    ensures { IfOk result (λ r. (r.0, r.1.now) ≡ spec.fixed_in (S.meaning scope.now) (term index.now) sizings.now values.now) }
{
    let context = own_context(sizings);
    let (bits, rest) = valued(alloc, scope, index, sizings, context, values)?;
    let value = Const {
        bits,
        signed: context.signed,
    };
    Ok((Index::Fixed(whole(&value)), rest))
}

/// Where the bits of a select lie.
#[cycle(built)]
pub fn aimed<'c, S: Scope>(
    alloc: Global,
    scope: &S,
    select: &Select,
    sizings: &[Sizing],
    values: &'c [Const],
) -> Found<'c, (Way, Index)>
    ensures { IfOk result (λ r. (r.0, r.1.now) ≡ spec.aimed (S.meaning scope.now) (pick_term select.now) sizings.now values.now) }
{
    match select {
        Select::Index(index) => {
            let (i, rest) = indexed(alloc, scope, index, sizings, values)?;
            Ok(((Way::At, i), rest))
        }
        Select::Range(_, _) => {
            let rest = behind_next(values);
            let low = Index::Fixed(next_value(rest));
            Ok(((Way::At, low), behind_next(rest)))
        }
        Select::Up(index, _) => {
            let (i, rest) = indexed(alloc, scope, index, sizings, values)?;
            let way = Way::Up(width_of(next_value(rest)));
            Ok(((way, i), behind_next(rest)))
        }
        Select::Down(index, _) => {
            let (i, rest) = indexed(alloc, scope, index, sizings, values)?;
            let way = Way::Down(width_of(next_value(rest)));
            Ok(((way, i), behind_next(rest)))
        }
    }
}

#[cycle(built)]
fn indexed<'c, S: Scope>(
    alloc: Global,
    scope: &S,
    index: &Expr,
    sizings: &[Sizing],
    values: &'c [Const],
) -> Found<'c, Index>
    ensures { IfOk result (λ r. (r.0, r.1.now) ≡ spec.by_index (first_node_of sizings.now).constant (spec.fixed_in (S.meaning scope.now) (term index.now) sizings.now values.now) (spec.built (S.meaning scope.now) (term index.now) sizings.now (own_context_of sizings.now) values.now)) }
{
    if first_node(sizings).constant {
        return fixed_in(alloc, scope, index, sizings, values);
    }
    let (i, rest) = built(alloc, scope, index, sizings, own_context(sizings), values)?;
    Ok((Index::Variable(i), rest))
}

/// The same items.
pub fn here<T>(items: &[T]) -> Result<&[T], NoMemory>
    ensures { result ≡ Ok items.entry }
{
    Ok(items)
}

/// Expressions each by itself.
#[cycle(built)]
fn builts<'c, S: Scope>(
    alloc: Global,
    scope: &S,
    parts: &[Expr],
    sizings: &[Sizing],
    values: &'c [Const],
) -> Found<'c, DExprList>
    ensures { IfOk result (λ r. (r.0, r.1.now) ≡ spec.builts (S.meaning scope.now) (terms (map term parts.now)) sizings.now values.now) }
{
    let mut all = Items::new(alloc);
    let mut rest = here(values)?;
    let mut ahead = here(sizings)?;
    for part in parts {
        let (e, left) = built(alloc, scope, part, ahead, own_context(ahead), rest)?;
        all = keep(all, own_size(ahead).length, e)?;
        rest = left;
        ahead = behind(ahead);
    }
    Ok((all, rest))
}
