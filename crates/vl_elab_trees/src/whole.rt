ghost use Rattle.std.specs.Prelude.{◌≡◌, ◌∷◌, [], IfOk};
ghost use Rattle.vl_tree.specs.Outcomes.{Gives, unless as unless_fault};
ghost use Rattle.vl_size.specs.Placed.{is_bad_whole as is_bad, lowest as lowest_size, widened as widened_to};
ghost use Rattle.vl_size.specs.Terms.{term};
ghost use Rattle.vl_elab_trees.specs.Whole as spec;

use crate::built::built;
use crate::calls::calls_fit;
use crate::scope::{Known, Scope};
use bits_core::{Items, NoMemory};
use design_core::DExpr;
use std::alloc::Global;
use vl_const::counting::{counts_behind, none_counted};
use vl_const::worth::worth;
use vl_const::{Counted, Names};
use vl_size::own::own;
use vl_size::placed::placed;
use vl_size::{Size, Sizing};
use vl_tree::{Code, Expr, Halt, lower, where_true};

fn widened(least: u32, sizing: &Sizing) -> Size
    ensures { result ≡ widened_to least sizing.now }
{
    let own = sizing.node.size;
    Size {
        length: if least < own.length {
            own.length
        } else {
            least
        },
        signed: own.signed,
    }
}

fn is_bad_whole(least: u32, sizing: &Sizing) -> bool
    ensures { result ≡ is_bad least sizing.now }
{
    sizing.node.size.length == 0 || least > 65_536
}

/// The lowest code among the faults of sizes.
pub fn lowest(alloc: Global, least: u32, sizing: &Sizing) -> Result<Option<Code>, NoMemory>
    ensures { IfOk result (λ code. code ≡ lowest_size least sizing.now) }
{
    let (_, wide) = placed(alloc, sizing, widened(least, sizing))?;
    let bad = where_true(is_bad_whole(least, sizing), Code::BadRange);
    let later = lower(bad, where_true(wide, Code::WideArithmetic));
    Ok(lower(sizing.node.fault, later))
}

fn unless(code: Option<Code>, e: DExpr) -> Result<DExpr, Halt>
    ensures { Gives result (unless_fault code e) }
{
    match code {
        None => Ok(e),
        Some(code) => Err(Halt::Refused(code)),
    }
}

/// A list of one sizing.
pub fn one(alloc: Global, sizing: Sizing) -> Result<Items<Sizing>, NoMemory>
    ensures { IfOk result (λ all. all ≡ sizing ∷ []) }
{
    let mut all = Items::new(alloc);
    all.push(sizing)?;
    Ok(all)
}

/// An expression that is to have at least so many bits, where the values of its counts, bounds and widths are known; or the lowest code among its faults.
/// Linear in the expression, but for look-ups.
pub fn expression_with<S: Scope>(
    alloc: Global,
    scope: &S,
    expr: &Expr,
    found: &Counted,
    least: u32,
) -> Result<DExpr, Halt>
    ensures { Gives result (spec.expression_with (S.meaning scope.now) (term expr.now) found.now least) }
{
    let known = Known { scope };
    let values = found.values.as_slice();
    let (sizing, _) = own(alloc, &Names { scope: &known }, expr, values)?;
    let sizes = lowest(alloc, least, &sizing)?;
    let context = widened(least, &sizing);
    let sizings = one(alloc, sizing)?;
    let all = (values, found.faults.as_slice());
    let (a, _) = worth(alloc, &known, expr, sizings.as_slice(), context, all)?;
    let fit = calls_fit(alloc, scope, expr)?;
    let later = lower(where_true(!fit, Code::PortMismatch), sizes);
    let code = lower(a.fault, later);
    let (e, _) = built(alloc, scope, expr, sizings.as_slice(), context, values)?;
    unless(code, e)
}

/// An expression of a scope as one of a design, as the right side of an assignment to so many bits (IEEE 1364-2005, 5.4 and 5.5): with the larger of both
/// lengths and the sign of its own. It is refused with the lowest code among its faults and those of its counts, bounds and widths: E14 where a constant
/// is wanted and it reads a signal or calls a function, or an exponent is below 0; E15 for a division by 0; E16 for an unknown name; E18 for a length or a
/// range; E19 for a call with another number of arguments; E24 for arithmetic on more than 128 bits. Linear in the expression, but for look-ups.
pub fn expression<S: Scope>(
    alloc: Global,
    scope: &S,
    expr: &Expr,
    least: u32,
) -> Result<DExpr, Halt>
    ensures { Gives result (spec.expression (S.meaning scope.now) (term expr.now) least) }
{
    let found = counts_behind(alloc, &Known { scope }, expr, none_counted(alloc))?;
    expression_with(alloc, scope, expr, &found, least)
}
