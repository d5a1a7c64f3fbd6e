ghost use Rattle.std.specs.Prelude.{◌≡◌, ◌≤◌, ◌∷◌, [], IfOk, false};
ghost use Rattle.bits_core.specs.Places.{extended};
ghost use Rattle.vl_const.specs.Counted.{counts, none_counted as no_values, judged_fault};
ghost use Rattle.vl_const.specs.Rooms.{room};
ghost use Rattle.vl_size.specs.Owns.{own as own_of};
ghost use Rattle.vl_size.specs.Placed.{widened as widened_to};
ghost use Rattle.vl_size.specs.Terms.{term};
ghost use Rattle.vl_tree.specs.Outcomes.{Gives};
ghost use Rattle.vl_generate.specs.Values as spec;

use bits_core::{Bits, Items, NoMemory};
use std::alloc::Global;
use vl_const::counting::{Counted, Judged, counts_behind, none_counted, value_of};
use vl_const::worth::worth;
use vl_const::{Answer, Constants, Names};
use vl_size::own::own;
use vl_size::{Const, Size, Sizing};
use vl_tree::{Code, Expr, Halt, lower, where_true};

/// An expression by itself: the values of its counts, bounds and widths, and its sizes.
#[derive(Drop)]
struct Sized {
    counted: Counted,
    sizing: Sizing,
}

fn sizes_of<S: Constants>(expr: &Expr, alloc: Global, scope: &S) -> Result<Sized, NoMemory>
    ensures counted { IfOk result (λ r. r.counted ≡ counts (S.meaning scope.now) (term expr.now) no_values) }
    ensures sizing { IfOk result (λ r. r.sizing ≡ spec.sized (S.meaning scope.now) (term expr.now)) }
{
    let counted = counts_behind(alloc, scope, expr, none_counted(alloc))?;
    let (sizing, _) = own(alloc, &Names { scope }, expr, counted.values.as_slice())?;
    Ok(Sized { counted, sizing })
}

fn one(alloc: Global, sizing: Sizing) -> Result<Items<Sizing>, NoMemory>
    ensures { IfOk result (λ all. all ≡ sizing ∷ []) }
{
    let mut all = Items::new(alloc);
    all.push(sizing)?;
    Ok(all)
}

fn fault_of(sizing: &Sizing, a: &Answer) -> Option<Code>
    ensures { result ≡ judged_fault sizing.now a.now }
{
    let here = lower(where_true(a.reads, Code::NotConstant), a.fault);
    let bad = where_true(sizing.node.size.length == 0, Code::BadRange);
    lower(here, lower(sizing.node.fault, bad))
}

fn first_fault(sizings: &[Sizing], a: &Answer) -> Option<Code>
    ensures { (s : Sizing) → sizings.now ≡ s ∷ [] → result ≡ judged_fault s a.now }
{
    match sizings {
        [] => None,
        [first, ..] => fault_of(first, a),
    }
}

/// The value at a length and a sign.
fn value_in<S: Constants>(
    expr: &Expr,
    alloc: Global,
    scope: &S,
    context: Size,
) -> Result<Judged, NoMemory>
    ensures { IfOk result (λ r. r ≡ spec.value_in (S.meaning scope.now) (term expr.now) context) }
{
    let Sized { counted, sizing } = sizes_of(expr, alloc, scope)?;
    let sizings = one(alloc, sizing)?;
    let values = (counted.values.as_slice(), counted.faults.as_slice());
    let (a, _) = worth(alloc, scope, expr, sizings.as_slice(), context, values)?;
    let fault = first_fault(sizings.as_slice(), &a);
    Ok(Judged {
        value: Const {
            bits: a.value,
            signed: context.signed,
        },
        fault,
    })
}

fn outcome(judged: Judged) -> Result<Const, Halt>
    ensures { Gives result (spec.outcome judged) }
{
    match judged.fault {
        None => Ok(judged.value),
        Some(code) => Err(Halt::Refused(code)),
    }
}

fn widened(length: u32, sizing: &Sizing) -> Size
    ensures { result ≡ widened_to length sizing.now }
{
    let own = sizing.node.size;
    Size {
        length: if length < own.length {
            own.length
        } else {
            length
        },
        signed: own.signed,
    }
}

/// The size of an expression that is assigned to so many bits.
fn context_of<S: Constants>(
    expr: &Expr,
    alloc: Global,
    scope: &S,
    length: u32,
) -> Result<Size, NoMemory>
    ensures { IfOk result (λ r. r ≡ widened_to length (spec.sized (S.meaning scope.now) (term expr.now))) }
{
    let found = sizes_of(expr, alloc, scope)?;
    Ok(widened(length, &found.sizing))
}

/// A constant by itself. Linear in the expression, but for look-ups.
#[tactic(auto, unfolding(crate::specs::Values::alone))]
pub fn alone<S: Constants>(expr: &Expr, alloc: Global, scope: &S) -> Result<Const, Halt>
    ensures { Gives result (spec.alone (S.meaning scope.now) (term expr.now)) }
{
    outcome(value_of(alloc, scope, expr)?)
}

fn is_true(value: &Const) -> bool
    ensures { result ≡ spec.is_true value.now }
{
    value_domain::operators::some_set(&value.bits)
}

/// Whether a constant has a bit that is 1.
pub fn test<S: Constants>(expr: &Expr, alloc: Global, scope: &S) -> Result<bool, Halt>
    ensures { Gives result (spec.test (S.meaning scope.now) (term expr.now)) }
{
    let value = alone(expr, alloc, scope)?;
    Ok(is_true(&value))
}

fn room_of(length: u32) -> usize
    ensures value { result ≡ room length }
    ensures some { 1 ≤ result }
    ensures most { result ≤ 65536 }
{
    if length == 0 {
        1
    } else if length > 65_536 {
        65_536
    } else {
        length as usize
    }
}

/// Bits brought to a length.
pub fn resized(alloc: Global, bits: &Bits, by_sign: bool, length: u32) -> Result<Bits, NoMemory>
    ensures { IfOk result (λ r. r ≡ extended by_sign (room length) bits.now) }
{
    let mut out = Bits::zeros(alloc, room_of(length))?;
    Bits::extend_into(bits, by_sign, &mut out);
    Ok(out)
}

fn brought(alloc: Global, size: Size, value: &Const) -> Result<Const, NoMemory>
    ensures { IfOk result (λ r. r ≡ spec.brought size value.now) }
{
    Ok(Const {
        bits: resized(alloc, &value.bits, false, size.length)?,
        signed: size.signed,
    })
}

/// The value that an assignment to a variable of this size writes.
#[tactic(auto, unfolding(crate::specs::Values::assigned))]
pub fn assigned<S: Constants>(
    expr: &Expr,
    alloc: Global,
    scope: &S,
    size: Size,
) -> Result<Const, Halt>
    ensures { Gives result (spec.assigned (S.meaning scope.now) size (term expr.now)) }
{
    let context = context_of(expr, alloc, scope, size.length)?;
    let value = outcome(value_in(expr, alloc, scope, context)?)?;
    Ok(brought(alloc, size, &value)?)
}

/// The own length and sign.
#[tactic(auto, unfolding(crate::specs::Values::own_size))]
pub fn own_size<S: Constants>(expr: &Expr, alloc: Global, scope: &S) -> Result<Size, NoMemory>
    ensures { IfOk result (λ r. r ≡ spec.own_size (S.meaning scope.now) expr.now) }
{
    let found = sizes_of(expr, alloc, scope)?;
    Ok(found.sizing.node.size)
}

fn joint(a: Size, b: Size) -> Size
    ensures { result ≡ spec.joint a b }
{
    Size {
        length: if a.length < b.length {
            b.length
        } else {
            a.length
        },
        signed: a.signed && b.signed,
    }
}

/// The longest length, with a sign where all have one.
pub fn joint_size<S: Constants>(
    exprs: &[Expr],
    alloc: Global,
    scope: &S,
    size: Size,
) -> Result<Size, NoMemory>
    ensures { IfOk result (λ r. r ≡ spec.joint_size (S.meaning scope.now) size exprs.now) }
{
    let mut all = size;
    for expr in exprs {
        all = joint(all, own_size(expr, alloc, scope)?);
    }
    Ok(all)
}

/// A selector or an item of a `case`, at the size of all.
#[tactic(auto, unfolding(crate::specs::Values::case_value))]
pub fn case_value<S: Constants>(
    expr: &Expr,
    alloc: Global,
    scope: &S,
    size: Size,
) -> Result<Const, Halt>
    ensures { Gives result (spec.case_value (S.meaning scope.now) size expr.now) }
{
    outcome(value_in(expr, alloc, scope, size)?)
}
