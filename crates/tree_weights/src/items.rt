ghost use Rattle.std.specs.Prelude.{◌≡◌, []};
ghost use Rattle.design_core.specs.Wellformed.{reset_weight, signal_lengths, weight_of};
ghost use Rattle.tree_weights.specs.Spent.{IsSpent};

use crate::lengths::{no_locals, spend};
use crate::weights::{spend_expr, spend_left, spend_length, spend_stmt};
use design_core::{DReset, DStmt, Item, Signal};

fn spend_clocked(reset: &Option<DReset>, body: &DStmt, signals: &[Signal], room: u64) -> Option<u64>
    ensures { IsSpent (reset_weight (signal_lengths signals.now) reset.now body.now) room result }
{
    let outside = no_locals();
    match reset {
        None => spend_stmt(body, signals, outside, room),
        Some(reset) => {
            let tested = spend_expr(&reset.test, signals, outside, room)?;
            let chosen = spend(1, tested)?;
            let branched = spend_stmt(&reset.branch, signals, outside, chosen)?;
            spend_stmt(body, signals, outside, branched)
        }
    }
}

/// Takes the weight that an item has to carry from what there is room for: what is left, or none exactly where it weighs more. The weight that it does
/// carry is not read.
pub fn spend_item(item: &Item, signals: &[Signal], room: u64) -> Option<u64>
    ensures { IsSpent (weight_of (signal_lengths signals.now) item.now) room result }
{
    let outside = no_locals();
    match item {
        Item::Assign { left, right, .. } => {
            let written = spend_length(left, signals, room)?;
            let placed = spend_left(left, signals, outside, written)?;
            spend_expr(right, signals, outside, placed)
        }
        Item::Comb { body, .. } => spend_stmt(body, signals, outside, room),
        Item::Clocked { reset, body, .. } => spend_clocked(reset, body, signals, room),
    }
}
