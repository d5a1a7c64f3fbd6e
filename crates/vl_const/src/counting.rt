ghost use Rattle.std.specs.Prelude.{◌≡◌, ◌∷◌, [], IfOk, map};
ghost use Rattle.vl_size.specs.Chains.{IsNoBinary};
ghost use Rattle.vl_size.specs.Placed.{is_bad_whole as is_bad, widened as widened_to};
ghost use Rattle.vl_size.specs.Terms.{term, pick_term, terms, picks};
ghost use Rattle.vl_const.specs.Counted as spec;
ghost use Rattle.vl_const.specs.Counted.{none_counted as no_values};
ghost use Rattle.vl_size.specs.declared.tree.Sizing.{Sizing};

use crate::answers::{Answer, is_none};
use crate::scope::{Constants, Names};
use crate::worth::worth;
use bits_core::{Bits, Items, NoMemory};
use std::alloc::Global;
use vl_size::own::own;
use vl_size::{Chain, Const, Size, Sizing, chain_of};
use vl_tree::{Code, Expr, Select, lower, where_true};

/// The values of counts, bounds and widths, and beside them the lowest codes of their expressions.
#[derive(Drop)]
pub struct Counted {
    pub values: Items<Const>,
    pub faults: Items<Option<Code>>,
}

/// A value, and the lowest code of its expression.
#[derive(Drop)]
pub struct Judged {
    pub value: Const,
    pub fault: Option<Code>,
}

/// No counts, and no faults of counts.
pub fn none_counted(alloc: Global) -> Counted
    ensures { result ≡ no_values }
{
    Counted {
        values: Items::new(alloc),
        faults: Items::new(alloc),
    }
}

fn harmless(alloc: Global) -> Result<Const, NoMemory>
    ensures { IfOk result (λ r. r ≡ spec.harmless) }
{
    let mut bits = Bits::zeros(alloc, 1)?;
    bits.set(0, true);
    Ok(Const {
        bits,
        signed: false,
    })
}

fn shown(alloc: Global, hidden: Option<Code>, value: Const) -> Result<Const, NoMemory>
    ensures { IfOk result (λ r. r ≡ spec.shown hidden value) }
{
    if is_none(hidden) {
        Ok(value)
    } else {
        harmless(alloc)
    }
}

fn with_value(
    alloc: Global,
    hidden: Option<Code>,
    judged: Judged,
    found: Counted,
) -> Result<Counted, NoMemory>
    ensures { IfOk result (λ r. r ≡ spec.with_value hidden judged found) }
{
    let Counted {
        mut values,
        mut faults,
    } = found;
    values.push(shown(alloc, hidden, judged.value)?)?;
    faults.push(judged.fault)?;
    Ok(Counted { values, faults })
}

fn with_count(alloc: Global, judged: Judged, found: Counted) -> Result<Counted, NoMemory>
    ensures { IfOk result (λ r. r ≡ spec.with_count judged found) }
{
    with_value(alloc, judged.fault, judged, found)
}

fn with_bounds(
    alloc: Global,
    high: Judged,
    low: Judged,
    found: Counted,
) -> Result<Counted, NoMemory>
    ensures { IfOk result (λ r. r ≡ spec.with_bounds high low found) }
{
    let hidden = lower(high.fault, low.fault);
    let found = with_value(alloc, hidden, high, found)?;
    with_value(alloc, hidden, low, found)
}

fn widened(sizing: &Sizing) -> Size
    ensures { result ≡ widened_to 0 sizing.now }
{
    sizing.node.size
}

fn is_bad_whole(sizing: &Sizing) -> bool
    ensures { result ≡ is_bad 0 sizing.now }
{
    sizing.node.size.length == 0
}

/// The lowest code of a constant expression.
fn judged_fault(sizing: &Sizing, a: &Answer) -> Option<Code>
    ensures { result ≡ spec.judged_fault sizing.now a.now }
{
    let here = lower(where_true(a.reads, Code::NotConstant), a.fault);
    let bad = where_true(is_bad_whole(sizing), Code::BadRange);
    lower(here, lower(sizing.node.fault, bad))
}

/// A list of one sizing.
fn one(alloc: Global, sizing: Sizing) -> Result<Items<Sizing>, NoMemory>
    ensures { IfOk result (λ all. all ≡ sizing ∷ []) }
{
    let mut all = Items::new(alloc);
    all.push(sizing)?;
    Ok(all)
}

fn first_fault(sizings: &[Sizing], a: &Answer) -> Option<Code>
    ensures { (s : Sizing) → sizings.now ≡ s ∷ [] → result ≡ spec.judged_fault s a.now }
{
    match sizings {
        [] => None,
        [first, ..] => judged_fault(first, a),
    }
}

/// The value of a constant expression by itself, where the values of its counts, bounds and widths are known. Linear in the tree, but for look-ups.
pub fn judge<S: Constants>(
    alloc: Global,
    scope: &S,
    expr: &Expr,
    found: &Counted,
) -> Result<Judged, NoMemory>
    ensures { IfOk result (λ r. r ≡ spec.judged (S.meaning scope.now) (term expr.now) found.now) }
{
    let (sizing, _) = own(alloc, &Names { scope }, expr, found.values.as_slice())?;
    let context = widened(&sizing);
    let signed = sizing.node.size.signed;
    let sizings = one(alloc, sizing)?;
    let values = (found.values.as_slice(), found.faults.as_slice());
    let (a, _) = worth(alloc, scope, expr, sizings.as_slice(), context, values)?;
    let fault = first_fault(sizings.as_slice(), &a);
    Ok(Judged {
        value: Const {
            bits: a.value,
            signed,
        },
        fault,
    })
}

/// The values of an expression's counts, bounds and widths, behind others. An expression inside one of these has a list of its own, so each node is
/// visited a fixed number of times. The operators of a chain from the left take no stack.
#[cycle(counts)]
pub fn counts_behind<S: Constants>(
    alloc: Global,
    scope: &S,
    expr: &Expr,
    found: Counted,
) -> Result<Counted, NoMemory>
    ensures { IfOk result (λ r. r ≡ spec.counts (S.meaning scope.now) (term expr.now) found) }
{
    let Chain { first, mut links } = chain_of(alloc, expr)?;
    if links.len() == 0 {
        return counts_operand(alloc, scope, expr, found);
    }
    let mut all = counts_operand(alloc, scope, first, found)?;
    while let Some(link) = links.pop() {
        all = counts_behind(alloc, scope, link.right, all)?;
    }
    Ok(all)
}

/// Those of an expression that is no operator between operands.
#[cycle(counts)]
fn counts_operand<S: Constants>(
    alloc: Global,
    scope: &S,
    expr: &Expr,
    found: Counted,
) -> Result<Counted, NoMemory>
    requires { IsNoBinary expr.now }
    ensures { IfOk result (λ r. r ≡ spec.counts (S.meaning scope.now) (term expr.now) found) }
{
    match expr {
        Expr::Number(_) => Ok(found),
        Expr::Name { selects, .. } => counts_picks(alloc, scope, selects.as_slice(), found),
        Expr::Call { arguments, .. } => counts_each(alloc, scope, arguments.as_slice(), found),
        Expr::System { argument, .. } => counts_behind(alloc, scope, argument.get(), found),
        Expr::Concat(parts) => counts_each(alloc, scope, parts.as_slice(), found),
        Expr::Repeat { count, parts } => {
            let count = value_of(alloc, scope, count.get())?;
            let found = with_count(alloc, count, found)?;
            counts_each(alloc, scope, parts.as_slice(), found)
        }
        Expr::Group(inner) => counts_behind(alloc, scope, inner.get(), found),
        Expr::Unary { operand, .. } => counts_behind(alloc, scope, operand.get(), found),
        Expr::Binary { .. } => unreachable!(),
        Expr::Choice { test, yes, no } => {
            let found = counts_behind(alloc, scope, test.get(), found)?;
            let found = counts_behind(alloc, scope, yes.get(), found)?;
            counts_behind(alloc, scope, no.get(), found)
        }
    }
}

/// The value of a constant expression, and the lowest code among its faults. Linear in the tree, but for look-ups.
#[cycle(counts)]
pub fn value_of<S: Constants>(alloc: Global, scope: &S, expr: &Expr) -> Result<Judged, NoMemory>
    ensures { IfOk result (λ r. r ≡ spec.value (S.meaning scope.now) (term expr.now)) }
{
    let found = counts_behind(alloc, scope, expr, none_counted(alloc))?;
    judge(alloc, scope, expr, &found)
}

#[cycle(counts)]
fn counts_picks<S: Constants>(
    alloc: Global,
    scope: &S,
    selects: &[Select],
    found: Counted,
) -> Result<Counted, NoMemory>
    ensures { IfOk result (λ r. r ≡ spec.counts_picks (S.meaning scope.now) (picks (map pick_term selects.now)) found) }
{
    match selects {
        [] => Ok(found),
        [select, ..] => counts_pick(alloc, scope, select, found),
    }
}

#[cycle(counts)]
fn counts_pick<S: Constants>(
    alloc: Global,
    scope: &S,
    select: &Select,
    found: Counted,
) -> Result<Counted, NoMemory>
    ensures { IfOk result (λ r. r ≡ spec.counts_pick (S.meaning scope.now) (pick_term select.now) found) }
{
    match select {
        Select::Index(index) => counts_behind(alloc, scope, index, found),
        Select::Range(high, low) => {
            let high = value_of(alloc, scope, high)?;
            let low = value_of(alloc, scope, low)?;
            with_bounds(alloc, high, low, found)
        }
        Select::Up(index, width) | Select::Down(index, width) => {
            let found = counts_behind(alloc, scope, index, found)?;
            let width = value_of(alloc, scope, width)?;
            with_count(alloc, width, found)
        }
    }
}

#[cycle(counts)]
fn counts_each<S: Constants>(
    alloc: Global,
    scope: &S,
    parts: &[Expr],
    found: Counted,
) -> Result<Counted, NoMemory>
    ensures { IfOk result (λ r. r ≡ spec.counts_each (S.meaning scope.now) (terms (map term parts.now)) found) }
{
    let mut all = found;
    for part in parts {
        all = counts_behind(alloc, scope, part, all)?;
    }
    Ok(all)
}
