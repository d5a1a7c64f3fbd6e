// What decides rows.
ghost use Rattle.std.specs.Prelude.{◌≡◌, ◌≤◌, ◌+◌, ℕ, List};
ghost use Rattle.plain_form.specs.SeenTable.{seen_row};
ghost use Rattle.plain_form.specs.declared.wires.Slot.{Slot};
ghost use Rattle.plain_rows.specs.Plain.{verdict_of};
ghost use Rattle.plain_rows.specs.Seen.{seen_verdict};

use plain_form::{Line, Slot};
use plain_rows::{Verdict, decide_row};

/// What decides rows, and counts those that it decided.
pub trait Decide {
    /// How many rows were decided; the count stands still at the greatest `u64`.
    ghost decided: { Self → ℕ };

    /// The ports with what drives them.
    ghost slots: { Self → List Slot };

    /// The verdict on a row.
    fn decide(&mut self, row: Line<'_>) -> Verdict
        ensures by_ends { seen_verdict result ≡ verdict_of (slots self.old) (seen_row row.entry) }
        ensures same { slots self.new ≡ slots self.old }
        ensures later { decided self.old ≤ decided self.new }
        ensures counted { decided self.new ≤ decided self.old + 1 };
}

/// Decides by the ends of the wires.
#[derive(Drop)]
pub struct ByEnds<'w> {
    pub slots: &'w [Slot],
    pub decided: u64,
}

impl Decide for ByEnds<'_> {
    ghost decided = { λ d. d.decided };

    ghost slots = { λ d. d.slots.now };

    fn decide(&mut self, row: Line<'_>) -> Verdict {
        self.decided = self.decided.saturating_add(1);
        decide_row(self.slots, row)
    }
}
