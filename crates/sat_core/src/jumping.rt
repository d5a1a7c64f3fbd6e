ghost use Rattle.std.specs.Prelude.{◌≡◌, ℕ, ◌≤◌, ◌<◌, ◌+◌, ◌^◌, length, reverse, take, All};
ghost use Rattle.cnf_core.specs.Lit.{variable_of};
ghost use Rattle.sat_core.specs.Jump.{jumped};
ghost use Rattle.sat_core.specs.Sync.{reads, open_count};
ghost use Rattle.sat_core.specs.Trail.{assigned, AreFresh};

use crate::marks::Marks;
use crate::trail::Trail;

/// The place of the oldest decision above that of a variable, or of the oldest of all where it has none. Only decisions are
/// looked at, of which all above are undone.
fn cut_place(marks: &Marks, second: u32) -> usize
    ensures within { result ≤ length marks.now }
    ensures jumped { reverse (take result marks.now) ≡ jumped second (reverse marks.now) (reverse marks.now) }
{
    let mut cut = marks.len();
    let mut level = marks.levels();
    while level > 0 {
        level -= 1;
        let place = marks.decision(level);
        if marks.get(place).lit.variable() == second {
            return cut;
        }
        cut = place;
    }
    cut
}

/// Undoes all decisions above that of a leaf, or all where it is 0. The leaves up to it have values.
pub fn jump(trail: &mut Trail, second: u32)
    requires values { reads trail.old.values.items ≡ assigned (reverse trail.old.marks) }
    requires fresh { AreFresh (reverse trail.old.marks) }
    requires fit { All (λ m. variable_of m.lit < length trail.old.values.items) trail.old.marks }
    requires small { second < 2 ^ 30 }
    ensures jumped { reverse trail.new.marks ≡ jumped second (reverse trail.old.marks) (reverse trail.old.marks) }
    ensures front { (n : ℕ) × (trail.new.marks ≡ take n trail.old.marks) }
    ensures values { reads trail.new.values.items ≡ assigned (reverse trail.new.marks) }
    ensures size { length trail.new.values.items ≡ length trail.old.values.items }
    ensures open { length trail.new.marks + open_count trail.new.values.items ≡ length trail.old.marks + open_count trail.old.values.items }
    ensures done { trail.new.done ≡ length trail.new.marks }
    ensures next { trail.new.next ≡ second + 1 }
{
    let cut = cut_place(&trail.marks, second);
    trail.undo(cut);
    trail.done = cut;
    trail.next = second + 1;
}
