ghost use Rattle.std.specs.Prelude.{◌≡◌, IfOk, map, Ok};
ghost use Rattle.vl_size.specs.Terms.{term, pick_term, terms, picks};
ghost use Rattle.vl_size.specs.Chains.{IsNoBinary};
ghost use Rattle.vl_const.specs.Operations.{combined as combined_by};
ghost use Rattle.vl_const.specs.Worths as spec;
ghost use Rattle.vl_const.specs.Answers.{nothing as nothing_joined};

use crate::answers::{Answer, Joined, Place};
use crate::made::{
    Around, binary_made, brought, call_made, choice_made, concat_made, join, leaf, nothing,
    repeat_made, select_made, system_made, unary_made,
};
use crate::numbers::number_value;
use crate::operations::{Operation, Operations, operations_of};
use crate::operators::{unary_of, work_of};
use crate::places::Way;
use crate::scope::Constants;
use crate::streams::{behind, first_node, inside, own_context, own_size, part_context};
use crate::values::{Values, fault_at, number_at, rest_of};
use bits_core::NoMemory;
use std::alloc::Global;
use vl_size::placed::{common, is_wide};
use vl_size::{Const, Operands, Size, Sizing, system_function, unary_operator, whole, width_of};
use vl_tree::{Expr, Select, lower, token_name};

/// What a walk over an expression finds, and the values that are left behind it.
pub type Found<'c, T> = Result<(T, Values<'c>), NoMemory>;

/// Whether the first expression is arithmetic on more than 128 bits.
fn wide_here(sizings: &[Sizing], context: Size) -> bool
    ensures { result ≡ spec.wide_here sizings.now context }
{
    let parts = inside(sizings);
    is_wide(first_node(sizings).narrow, context, common(parts), parts)
}

fn sign_by(operands: Operands, own: bool, shared: bool) -> bool
    ensures { result ≡ spec.sign_by operands own shared }
{
    match operands {
        Operands::Compared => shared,
        Operands::Apart | Operands::Shared | Operands::FirstShared | Operands::FirstApart => own,
    }
}

fn working_sign(sizings: &[Sizing], context: Size) -> bool
    ensures { result ≡ spec.working_sign sizings.now context }
{
    let shared = common(inside(sizings)).signed;
    sign_by(first_node(sizings).operands, context.signed, shared)
}

fn placed_at(way: Way, signed: bool, a: Answer) -> Place
    ensures { result ≡ spec.placed_at way signed a }
{
    let Answer {
        value,
        reads,
        fault,
    } = a;
    let index = Const {
        bits: value,
        signed,
    };
    Place {
        way,
        at: whole(&index),
        reads,
        fault,
    }
}

/// An operator's answer by those of its operands.
fn combined(alloc: Global, step: Operation, a: Answer, b: Answer) -> Result<Answer, NoMemory>
    ensures { IfOk result (λ r. r ≡ combined_by step.entry a b) }
{
    let second = behind(inside(step.sizings));
    let around = Around {
        context: step.context,
        signed: working_sign(step.sizings, step.context),
        wide: wide_here(step.sizings, step.context),
        fault: first_node(second).fault,
        second: own_context(second).signed,
    };
    binary_made(alloc, work_of(step.op), around, a, b)
}

/// An expression in a context, and the values that it has not used. Linear in the tree, but for look-ups; the operators of a chain from the left take no stack.
#[cycle(worth)]
pub fn worth<'c, S: Constants>(
    alloc: Global,
    scope: &S,
    expr: &Expr,
    sizings: &[Sizing],
    context: Size,
    values: Values<'c>,
) -> Found<'c, Answer>
    ensures { IfOk result (λ r. (r.0, (r.1.0.now, r.1.1.now)) ≡ spec.worth (S.meaning scope.now) (term expr.now) sizings.now context (values.entry.0.now, values.entry.1.now)) }
{
    let Operations {
        first,
        sizings: inner,
        context: outer,
        mut steps,
    } = operations_of(alloc, expr, sizings, context)?;
    if steps.len() == 0 {
        return worth_operand(alloc, scope, expr, sizings, context, values);
    }
    let (mut all, mut rest) = worth_operand(alloc, scope, first, inner, outer, values)?;
    while let Some(step) = steps.pop() {
        let second = behind(inside(step.sizings));
        let outer = part_context(step.sizings, step.context, false, second);
        let (right, left) = worth(alloc, scope, step.right, second, outer, rest)?;
        all = combined(alloc, step, all, right)?;
        rest = left;
    }
    Ok((all, rest))
}

/// An expression that is no operator between operands.
#[cycle(worth)]
fn worth_operand<'c, S: Constants>(
    alloc: Global,
    scope: &S,
    expr: &Expr,
    sizings: &[Sizing],
    context: Size,
    values: Values<'c>,
) -> Found<'c, Answer>
    requires { IsNoBinary expr.now }
    ensures { IfOk result (λ r. (r.0, (r.1.0.now, r.1.1.now)) ≡ spec.worth (S.meaning scope.now) (term expr.now) sizings.now context (values.entry.0.now, values.entry.1.now)) }
{
    match expr {
        Expr::Number(token) => {
            let a = Answer {
                value: number_value(alloc, token.text)?,
                reads: false,
                fault: None,
            };
            Ok((brought(alloc, context, a)?, values))
        }
        Expr::Name { name, selects } => {
            let (a, rest) = worth_picks(
                alloc,
                scope,
                token_name(name),
                selects.as_slice(),
                sizings,
                values,
            )?;
            Ok((brought(alloc, context, a)?, rest))
        }
        Expr::Call { arguments, .. } => {
            let parts = inside(sizings);
            let (all, rest) = worths(alloc, scope, arguments.as_slice(), parts, values)?;
            Ok((call_made(alloc, context, all)?, rest))
        }
        Expr::System { name, argument } => {
            let parts = inside(sizings);
            let (a, rest) = worth(
                alloc,
                scope,
                argument.get(),
                parts,
                own_context(parts),
                values,
            )?;
            Ok((system_made(alloc, system_function(name), context, a)?, rest))
        }
        Expr::Concat(parts) => {
            let (all, rest) = worths(alloc, scope, parts.as_slice(), inside(sizings), values)?;
            Ok((concat_made(alloc, context, all)?, rest))
        }
        Expr::Repeat { parts, .. } => {
            let count = number_at(values);
            let fault = fault_at(values);
            let (all, rest) = worths(
                alloc,
                scope,
                parts.as_slice(),
                inside(sizings),
                rest_of(values),
            )?;
            Ok((repeat_made(alloc, count, fault, context, all)?, rest))
        }
        Expr::Group(inner) => worth(alloc, scope, inner.get(), inside(sizings), context, values),
        Expr::Unary { op, operand } => {
            let parts = inside(sizings);
            let outer = part_context(sizings, context, true, parts);
            let (a, rest) = worth(alloc, scope, operand.get(), parts, outer, values)?;
            let wide = wide_here(sizings, context);
            let op = unary_of(unary_operator(op));
            Ok((unary_made(alloc, op, wide, context, a)?, rest))
        }
        Expr::Binary { .. } => unreachable!(),
        Expr::Choice { test, yes, no } => {
            let first = inside(sizings);
            let outer = part_context(sizings, context, true, first);
            let (test, rest) = worth(alloc, scope, test.get(), first, outer, values)?;
            let second = behind(first);
            let outer = part_context(sizings, context, false, second);
            let (yes, rest) = worth(alloc, scope, yes.get(), second, outer, rest)?;
            let third = behind(second);
            let outer = part_context(sizings, context, false, third);
            let (no, rest) = worth(alloc, scope, no.get(), third, outer, rest)?;
            Ok((choice_made(alloc, context, test, yes, no)?, rest))
        }
    }
}

/// A name with its selects.
#[cycle(worth)]
fn worth_picks<'c, S: Constants>(
    alloc: Global,
    scope: &S,
    name: &[u8],
    selects: &[Select],
    sizings: &[Sizing],
    values: Values<'c>,
) -> Found<'c, Answer>
    ensures { IfOk result (λ r. (r.0, (r.1.0.now, r.1.1.now)) ≡ spec.worth_picks (S.meaning scope.now) name.now (picks (map pick_term selects.now)) sizings.now (values.entry.0.now, values.entry.1.now)) }
{
    let leaf = leaf(alloc, scope.entry(name), scope.value(name))?;
    match selects {
        [] => Ok((leaf, values)),
        [select, ..] => {
            let (place, rest) = worth_pick(alloc, scope, select, inside(sizings), values)?;
            let own = own_size(sizings);
            let wide = wide_here(sizings, own);
            let a = select_made(alloc, scope.entry(name), own, wide, leaf, place)?;
            Ok((a, rest))
        }
    }
}

fn with_width<'c>(way: Way, place: Place, values: Values<'c>) -> (Place, Values<'c>)
    ensures { (result.0, (result.1.0.now, result.1.1.now)) ≡ (spec.place_with way place (values.entry.0.now, values.entry.1.now)) }
{
    let place = Place {
        way,
        at: place.at,
        reads: place.reads,
        fault: lower(place.fault, fault_at(values)),
    };
    (place, rest_of(values))
}

/// Where the bits of a select lie.
#[cycle(worth)]
fn worth_pick<'c, S: Constants>(
    alloc: Global,
    scope: &S,
    select: &Select,
    sizings: &[Sizing],
    values: Values<'c>,
) -> Found<'c, Place>
    ensures { IfOk result (λ r. (r.0, (r.1.0.now, r.1.1.now)) ≡ spec.worth_pick (S.meaning scope.now) (pick_term select.now) sizings.now (values.entry.0.now, values.entry.1.now)) }
{
    let context = own_context(sizings);
    match select {
        Select::Index(index) => {
            let (a, rest) = worth(alloc, scope, index, sizings, context, values)?;
            Ok((placed_at(Way::At, context.signed, a), rest))
        }
        Select::Range(_, _) => {
            let low = rest_of(values);
            let place = Place {
                way: Way::At,
                at: number_at(low),
                reads: false,
                fault: lower(fault_at(values), fault_at(low)),
            };
            Ok((place, rest_of(low)))
        }
        Select::Up(index, _) => {
            let (a, rest) = worth(alloc, scope, index, sizings, context, values)?;
            let way = Way::Up(width_of(number_at(rest)));
            Ok(with_width(way, placed_at(Way::At, context.signed, a), rest))
        }
        Select::Down(index, _) => {
            let (a, rest) = worth(alloc, scope, index, sizings, context, values)?;
            let way = Way::Down(width_of(number_at(rest)));
            Ok(with_width(way, placed_at(Way::At, context.signed, a), rest))
        }
    }
}

/// The same values.
fn here<'c>(values: Values<'c>) -> Result<Values<'c>, NoMemory>
    ensures { result ≡ Ok values.entry }
{
    Ok(values)
}

/// The same items.
fn all_of<T>(items: &[T]) -> Result<&[T], NoMemory>
    ensures { result ≡ Ok items.entry }
{
    Ok(items)
}

/// Expressions each by itself.
#[cycle(worth)]
fn worths<'c, S: Constants>(
    alloc: Global,
    scope: &S,
    parts: &[Expr],
    sizings: &[Sizing],
    values: Values<'c>,
) -> Found<'c, Joined>
    ensures { IfOk result (λ r. (r.0, (r.1.0.now, r.1.1.now)) ≡ spec.worths (S.meaning scope.now) (terms (map term parts.now)) sizings.now (values.entry.0.now, values.entry.1.now) nothing_joined) }
{
    let mut all = nothing(alloc);
    let mut rest = here(values)?;
    let mut ahead = all_of(sizings)?;
    for part in parts {
        let (a, left) = worth(alloc, scope, part, ahead, own_context(ahead), rest)?;
        all = join(all, own_size(ahead).length, a)?;
        rest = left;
        ahead = behind(ahead);
    }
    Ok((all, rest))
}
