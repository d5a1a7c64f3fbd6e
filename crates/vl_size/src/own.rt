ghost use Rattle.std.specs.Prelude.{◌≡◌, [], IfOk, map, Ok};
ghost use Rattle.std.specs.Option.{option_copied};
ghost use Rattle.vl_size.specs.Chains.{IsNoBinary};
ghost use Rattle.vl_size.specs.Owns as spec;
ghost use Rattle.vl_size.specs.Terms.{term, pick_term, terms, picks};

use crate::chain::{Chain, chain_of};
use crate::constant::{Const, behind_next, next_value};
use crate::nodes::{
    binary_node, call_node, choice_node, concat_node, group_node, index_node, name_node,
    number_node, part_node, range_node, repeat_node, system_node, unary_node,
};
use crate::operators::{system_function, unary_operator};
use crate::table::{SizeEntry, Sizes};
use crate::tree::{Node, Sizing};
use bits_core::{Items, NoMemory};
use std::alloc::Global;
use vl_tree::{Expr, Select, token_name};

type Found<'c, T> = Result<(T, &'c [Const]), NoMemory>;

fn first_input(inputs: &[u32]) -> u32
    ensures { result ≡ spec.first_input inputs.now }
{
    match inputs {
        [] => 0,
        [first, ..] => *first,
    }
}

fn other_inputs(inputs: &[u32]) -> &[u32]
    ensures { result.now ≡ spec.other_inputs inputs.now }
{
    match inputs {
        [] => inputs,
        [_first, rest @ ..] => rest,
    }
}

fn inputs_of(entry: Option<&SizeEntry>) -> &[u32]
    ensures { result.now ≡ spec.inputs_of (option_copied entry.entry) }
{
    match entry {
        None => &[],
        Some(entry) => entry.inputs.as_slice(),
    }
}

/// A part that goes to an input of so many bits.
pub fn at_least(least: u32, part: Sizing) -> Sizing
    ensures { result ≡ spec.at_least least part }
{
    let node = Node { least, ..part.node };
    part.with_node(node)
}

/// An expression before it has a context, and the values that it has not used. Linear in the tree, but for look-ups; the operators of a chain from the left
/// take no stack.
#[cycle(own)]
pub fn own<'c, S: Sizes>(
    alloc: Global,
    names: &S,
    expr: &Expr,
    values: &'c [Const],
) -> Found<'c, Sizing>
    ensures { IfOk result (λ r. (r.0, r.1.now) ≡ spec.own (S.look names.now) (term expr.now) values.now) }
{
    let Chain { first, mut links } = chain_of(alloc, expr)?;
    if links.len() == 0 {
        return own_operand(alloc, names, expr, values);
    }
    let (mut all, mut rest) = own_operand(alloc, names, first, values)?;
    while let Some(link) = links.pop() {
        let (right, behind) = own(alloc, names, link.right, rest)?;
        all = binary_node(alloc, link.op, all, right)?;
        rest = behind;
    }
    Ok((all, rest))
}

/// An expression that is no operator between operands.
#[cycle(own)]
fn own_operand<'c, S: Sizes>(
    alloc: Global,
    names: &S,
    expr: &Expr,
    values: &'c [Const],
) -> Found<'c, Sizing>
    requires { IsNoBinary expr.now }
    ensures { IfOk result (λ r. (r.0, r.1.now) ≡ spec.own (S.look names.now) (term expr.now) values.now) }
{
    match expr {
        Expr::Number(token) => Ok((number_node(alloc, token.text), values)),
        Expr::Name { name, selects } => {
            let entry = names.find(token_name(name));
            own_picks(alloc, names, entry, selects.as_slice(), values)
        }
        Expr::Call { name, arguments } => {
            let entry = names.find(token_name(name));
            let (parts, rest) = owns(alloc, names, arguments.as_slice(), inputs_of(entry), values)?;
            Ok((call_node(entry, parts), rest))
        }
        Expr::System { name, argument } => {
            let (a, rest) = own(alloc, names, argument.get(), values)?;
            Ok((system_node(alloc, system_function(name), a)?, rest))
        }
        Expr::Concat(parts) => {
            let (parts, rest) = owns(alloc, names, parts.as_slice(), &[], values)?;
            Ok((concat_node(parts), rest))
        }
        Expr::Repeat { parts, .. } => {
            let count = next_value(values);
            let (parts, rest) = owns(alloc, names, parts.as_slice(), &[], behind_next(values))?;
            Ok((repeat_node(count, parts), rest))
        }
        Expr::Group(inner) => {
            let (a, rest) = own(alloc, names, inner.get(), values)?;
            Ok((group_node(alloc, a)?, rest))
        }
        Expr::Unary { op, operand } => {
            let (a, rest) = own(alloc, names, operand.get(), values)?;
            Ok((unary_node(alloc, unary_operator(op), a)?, rest))
        }
        Expr::Binary { .. } => unreachable!(),
        Expr::Choice { test, yes, no } => {
            let (test, rest) = own(alloc, names, test.get(), values)?;
            let (yes, rest) = own(alloc, names, yes.get(), rest)?;
            let (no, rest) = own(alloc, names, no.get(), rest)?;
            Ok((choice_node(alloc, test, yes, no)?, rest))
        }
    }
}

/// A name with its selects.
#[cycle(own)]
pub fn own_picks<'c, S: Sizes>(
    alloc: Global,
    names: &S,
    entry: Option<&SizeEntry>,
    selects: &[Select],
    values: &'c [Const],
) -> Found<'c, Sizing>
    ensures { IfOk result (λ r. (r.0, r.1.now) ≡ spec.own_picks (S.look names.now) (option_copied entry.entry) (picks (map pick_term selects.now)) values.now) }
{
    match selects {
        [] => Ok((name_node(alloc, entry), values)),
        [select, ..] => own_pick(alloc, names, entry, select, values),
    }
}

#[cycle(own)]
fn own_pick<'c, S: Sizes>(
    alloc: Global,
    names: &S,
    entry: Option<&SizeEntry>,
    select: &Select,
    values: &'c [Const],
) -> Found<'c, Sizing>
    ensures { IfOk result (λ r. (r.0, r.1.now) ≡ spec.own_pick (S.look names.now) (option_copied entry.entry) (pick_term select.now) values.now) }
{
    match select {
        Select::Index(index) => {
            let (a, rest) = own(alloc, names, index, values)?;
            Ok((index_node(alloc, entry, a)?, rest))
        }
        Select::Range(_, _) => {
            let rest = behind_next(behind_next(values));
            Ok((range_node(alloc, entry, values), rest))
        }
        Select::Up(index, _) | Select::Down(index, _) => {
            let (a, rest) = own(alloc, names, index, values)?;
            let width = next_value(rest);
            Ok((part_node(alloc, entry, a, width)?, behind_next(rest)))
        }
    }
}

fn here<T>(items: &[T]) -> Result<&[T], NoMemory>
    ensures { result ≡ Ok items.entry }
{
    Ok(items)
}

#[cycle(own)]
fn owns<'c, S: Sizes>(
    alloc: Global,
    names: &S,
    parts: &[Expr],
    inputs: &[u32],
    values: &'c [Const],
) -> Found<'c, Items<Sizing>>
    ensures { IfOk result (λ r. (r.0, r.1.now) ≡ spec.owns (S.look names.now) (terms (map term parts.now)) inputs.now values.now) }
{
    let mut all = Items::new(alloc);
    let mut rest = here(values)?;
    let mut ahead = here(inputs)?;
    for part in parts {
        let (own, behind) = own(alloc, names, part, rest)?;
        all.push(at_least(first_input(ahead), own))?;
        rest = behind;
        ahead = other_inputs(ahead);
    }
    Ok((all, rest))
}
