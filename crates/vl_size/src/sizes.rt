ghost use Rattle.std.specs.Prelude.{◌≡◌, ◌≤◌, [], IfSome};
ghost use denote.Param.Weighed.{most};
ghost use Rattle.vl_size.specs.declared.sizes.SizedExpr.{size-SizedExpr};
ghost use Rattle.vl_tree.specs.Outcomes.{GivesAt};
ghost use Rattle.vl_size.specs.Placed as spec;
ghost use Rattle.vl_size.specs.Terms.{term};
ghost use Rattle.vl_size.specs.Tables.{first};

use crate::constant::CountList;
use crate::own::own;
use crate::placed::placed;
use crate::table::{SizeTable, Sizes};
use crate::tree::{Size, Sizing};
use bits_core::{Items, Name};
use std::alloc::Global;
use vl_tree::{Code, Expr, Fault, Place, Stop, lower, where_true};

/// An expression with the length in bits and the sign that each part has in its context. Its parts are its operands from the left, an index and an
/// argument among them; what a `CountList` holds is no part.
pub struct SizedExpr {
    pub length: u32,
    pub signed: bool,
    pub parts: Items<SizedExpr>,
}

impl Drop for SizedExpr {
    /// Lets go of a chain of first parts by a loop, so that its length takes no stack.
    #[cycle(sized)]
    fn drop(mut self) {
        loop {
            let SizedExpr {
                length: _,
                signed: _,
                parts,
            } = self;
            match first_of(parts) {
                None => return,
                Some(first) => self = first,
            }
        }
    }
}

/// The first part alone; the others are let go of.
#[cycle(sized)]
fn first_of(parts: Items<SizedExpr>) -> Option<SizedExpr>
    ensures { IfSome result (λ first. size-SizedExpr first ≤ most size-SizedExpr parts) }
{
    let mut list = parts.into_vec();
    let mut first = None;
    while let Some(part) = list.pop() {
        first = Some(part);
    }
    list.destroy_empty();
    first
}

/// A list of sized expressions.
pub type SizedExprList = Items<SizedExpr>;

/// The expression with a length and a sign at each part, as the right side of an assignment to so many bits (IEEE 1364-2005, 5.4 and
/// 5.5). `counts` are the values of its replication counts, range bounds and widths.
///
/// It is refused with the lowest code among its faults: E16 for an unknown name, E18 for a length or a range, E24 for arithmetic on
/// more than 128 bits; the place is the empty path. Linear in the expression, but for look-ups, which go through the table.
pub fn size(
    alloc: Global,
    expr: &Expr,
    names: &SizeTable,
    counts: &CountList,
    context: u32,
) -> Result<SizedExpr, Stop>
    ensures { GivesAt [] result (spec.sizing (λ name. first name names.now.entries) counts.now context (term expr.now)) }
{
    size_in(alloc, expr, names, counts, context)
}

/// As [`size`], with names looked up in any way.
pub fn size_in<S: Sizes>(
    alloc: Global,
    expr: &Expr,
    names: &S,
    counts: &CountList,
    context: u32,
) -> Result<SizedExpr, Stop>
    ensures { GivesAt [] result (spec.sizing (S.look names.now) counts.now context (term expr.now)) }
{
    let (sizing, _) = own(alloc, names, expr, counts.as_slice())?;
    let outer = widened(context, &sizing);
    let (sized, wide) = placed(alloc, &sizing, outer)?;
    let bad = where_true(is_bad_whole(context, &sizing), Code::BadRange);
    let later = lower(bad, where_true(wide, Code::WideArithmetic));
    match lower(sizing.node.fault, later) {
        None => Ok(sized),
        Some(code) => Err(Stop::Fault(Fault {
            code,
            place: Place::Path(Name::new(alloc)),
        })),
    }
}

fn widened(context: u32, sizing: &Sizing) -> Size
    ensures { result ≡ spec.widened context sizing.now }
{
    let own = sizing.node.size;
    Size {
        length: if context < own.length {
            own.length
        } else {
            context
        },
        signed: own.signed,
    }
}

fn is_bad_whole(context: u32, sizing: &Sizing) -> bool
    ensures { result ≡ spec.is_bad_whole context sizing.now }
{
    sizing.node.size.length == 0 || context > 65_536
}
