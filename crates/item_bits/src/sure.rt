ghost use Rattle.std.specs.Prelude.{◌≡◌, OnOk};
ghost use Rattle.design_core.specs.Core.{surely_names};
ghost use Rattle.design_core.specs.Parts.{length_at};
ghost use Rattle.design_core.specs.Terms.{left as core_left};
ghost use Rattle.item_bits.specs.Pieces.{Adds};

use crate::drives::{add_part, size_in};
use crate::pieces::Piece;
use bits_core::NoMemory;
use design_core::{DLeft, Signal};

/// The bits that a left side surely names are added; a variable index surely names none.
#[cycle(sure)]
pub fn add_left_sure(signals: &[Signal], left: &DLeft, all: &mut Vec<Piece>) -> Result<(), NoMemory>
    ensures { OnOk result (Adds all.old.items all.new.items (surely_names (core_left (length_at signals.now) left.now))) }
{
    match left {
        DLeft::Whole { base, length } => add_part(*base, *length, 0, *length, all),
        DLeft::Part { base, low, length } => add_part(
            *base,
            size_in(signals, *base),
            *low,
            *length,
            all,
        ),
        DLeft::At { .. } => Ok(()),
        DLeft::Concat(parts) => {
            let parts = parts.as_slice();
            for at in 0..parts.len() {
                add_left_sure(signals, &parts[at], all)?;
            }
            Ok(())
        }
    }
}
