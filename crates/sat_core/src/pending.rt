ghost use Rattle.std.specs.Prelude.{◌≡◌, ℕ, ◌<◌, ◌||◌, eqb, false, length, slice_set, OnOk, IfOk};
ghost use Rattle.std.specs.BinaryHeap.{IsHeap, heap_items};
ghost use Rattle.std.specs.Ordering.{nat_cmp};
ghost use Rattle.std.proofs.Props.{props};
ghost use Rattle.sat_core.specs.Places.{HasMark, IsBelow, StaysPending, NewestSays, IsClear};
ghost use Rattle.sat_core.specs.Rests.{needs};

use crate::marks::Marks;
use bits_core::NoMemory;
use std::alloc::Global;
use std::collections::BinaryHeap;

/// The variables that a conflict rests on and whose marks are still to be looked at, and the places of these marks. There are
/// none between two conflicts.
#[derive(Drop)]
pub struct Pending {
    pub flags: Vec<bool>,
    pub places: BinaryHeap<usize>,
    ghost ordered: { IsHeap nat_cmp (heap_items places) } by { Prim.hlevel props },
}

impl Pending {
    /// Nothing to look at, of the variables below a number.
    pub fn new(alloc: Global, size: usize) -> Result<Pending, NoMemory>
        ensures clear { IfOk result (λ pending. IsClear pending.flags.items (heap_items pending.places)) }
        ensures size { IfOk result (λ pending. length pending.flags.items ≡ size) }
    {
        Ok(Pending {
            flags: vec![in alloc; false; size]?,
            places: BinaryHeap::new(alloc),
        })
    }

    /// Flags a variable, whose mark waits then.
    pub fn add(&mut self, marks: &Marks, variable: u32) -> Result<(), NoMemory>
        requires room { variable < length self.old.flags.items }
        requires there { HasMark marks.now variable }
        ensures size { OnOk result (length self.new.flags.items ≡ length self.old.flags.items) }
        ensures flags { OnOk result ((x : ℕ) → needs self.new.flags.items x ≡ (needs self.old.flags.items x || eqb variable x)) }
        ensures waits { OnOk result (StaysPending marks.now (IsBelow marks.now self.old.flags.items variable) self.old.flags.items (heap_items self.old.places) self.new.flags.items (heap_items self.new.places)) }
    {
        if self.flags[variable as usize] {
            return Ok(());
        }
        self.places.push(marks.place(variable))?;
        self.flags[variable as usize] = true;
        Ok(())
    }

    /// Takes out the newest place that waits. The cost is logarithmic in what waits.
    pub fn newest(&mut self) -> Option<usize>
        ensures flags { self.new.flags.items ≡ self.old.flags.items }
        ensures newest { NewestSays self.old.flags.items (heap_items self.old.places) self.new.flags.items (heap_items self.new.places) result }
    {
        self.places.pop()
    }

    /// Takes the flag of a variable away.
    pub fn finish(&mut self, variable: u32)
        requires { variable < length self.old.flags.items }
        ensures flags { self.new.flags.items ≡ slice_set self.old.flags.items variable false }
        ensures places { heap_items self.new.places ≡ heap_items self.old.places }
    {
        self.flags[variable as usize] = false;
    }
}
