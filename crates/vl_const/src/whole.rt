ghost use Rattle.std.specs.Prelude.{◌≡◌, []};
ghost use Rattle.vl_tree.specs.Outcomes.{GivesAt};
ghost use Rattle.vl_size.specs.Terms.{term};
ghost use Rattle.vl_const.specs.Outcomes as spec;
ghost use Rattle.vl_const.specs.Tables.{table_meaning};

use crate::counting::{counts_behind, none_counted, value_of};
use crate::scope::Constants;
use crate::table::ConstTable;
use bits_core::Name;
use std::alloc::Global;
use vl_size::{Const, CountList};
use vl_tree::{Expr, Fault, Place, Stop, lowest};

/// The value of a constant expression by itself, or the lowest code among its faults and those of its counts, bounds and widths: E14 where it reads
/// a signal or calls a function, or an exponent is below 0; E15 for a division by 0; E16 for an unknown name; E18 for a length or a range;
/// E24 for arithmetic on more than 128 bits. The place is the empty path. Linear in the expression, but for look-ups, which go through the table.
pub fn const_value(alloc: Global, expr: &Expr, names: &ConstTable) -> Result<Const, Stop>
    ensures { GivesAt [] result (spec.const_value (table_meaning names.now) (term expr.now)) }
{
    const_value_in(alloc, expr, names)
}

/// As [`const_value`], with names looked up in any way.
pub fn const_value_in<S: Constants>(alloc: Global, expr: &Expr, scope: &S) -> Result<Const, Stop>
    ensures { GivesAt [] result (spec.const_value (S.meaning scope.now) (term expr.now)) }
{
    let found = value_of(alloc, scope, expr)?;
    match found.fault {
        None => Ok(found.value),
        Some(code) => Err(Stop::Fault(Fault {
            code,
            place: Place::Path(Name::new(alloc)),
        })),
    }
}

/// The constants that the lengths inside an expression hang on, as they stand in the source: how often its replications repeat, the bounds of its
/// part-selects, the widths of its indexed ones. One that stands inside another is not listed. Or the lowest code among their faults.
pub fn counts(alloc: Global, expr: &Expr, names: &ConstTable) -> Result<CountList, Stop>
    ensures { GivesAt [] result (spec.count_list (table_meaning names.now) (term expr.now)) }
{
    counts_in(alloc, expr, names)
}

/// As [`counts`], with names looked up in any way.
pub fn counts_in<S: Constants>(alloc: Global, expr: &Expr, scope: &S) -> Result<CountList, Stop>
    ensures { GivesAt [] result (spec.count_list (S.meaning scope.now) (term expr.now)) }
{
    let found = counts_behind(alloc, scope, expr, none_counted(alloc))?;
    match lowest(found.faults.as_slice()) {
        None => Ok(found.values),
        Some(code) => Err(Stop::Fault(Fault {
            code,
            place: Place::Path(Name::new(alloc)),
        })),
    }
}
