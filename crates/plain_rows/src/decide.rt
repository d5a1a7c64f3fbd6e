ghost use Rattle.std.specs.Prelude.{◌≡◌, ◌<◌, length};
ghost use Rattle.plain_form.specs.SeenTable.{seen_row};
ghost use Rattle.plain_rows.specs.Plain as spec;
ghost use Rattle.plain_rows.specs.Seen.{seen_verdict};

use plain_form::{Driver, Line, Slot};

/// The verdict on a row: proved, or refuted at launch 0 by a run in which at most one free port has value 1.
#[derive(Clone, Copy, Debug, PartialEq, Eq)]
pub enum Verdict {
    Proved,
    Refuted(Option<usize>),
}

// What stands at the other end of a port.
fn end_of(slots: &[Slot], at: usize) -> Driver
    ensures { result ≡ spec.end_of slots.now at }
{
    match slots.get(at) {
        Some(slot) => match slot.driver {
            Some(driver) => driver,
            None => Driver::Port(at),
        },
        None => Driver::Port(at),
    }
}

fn is_same(source: Driver, dest: Driver) -> bool
    ensures { result ≡ spec.is_same source dest }
{
    match (source, dest) {
        (Driver::Fixed(a), Driver::Fixed(b)) => a == b,
        (Driver::Port(a), Driver::Port(b)) => a == b,
        _ => false,
    }
}

// The port that is 1 in the first breaking run, if one is.
fn one_of(source: Driver, dest: Driver) -> Option<usize>
    ensures { result ≡ spec.one_of source dest }
{
    match (source, dest) {
        (Driver::Fixed(_), Driver::Fixed(_)) => None,
        (Driver::Fixed(value), Driver::Port(port)) | (Driver::Port(port), Driver::Fixed(value)) => {
            if value { None } else { Some(port) }
        }
        (Driver::Port(a), Driver::Port(b)) => Some(if a < b { b } else { a }),
    }
}

/// The verdict on a row over the ports of a sound module, where its places are those of ports: by the ends of its two wires.
pub fn decide_row(slots: &[Slot], row: Line<'_>) -> Verdict
    ensures by_ends { seen_verdict result ≡ spec.verdict_of slots.now (seen_row row.entry) }
    ensures right { spec.IsSound slots.now → row.entry.source < length slots.now → row.entry.dest < length slots.now
        → spec.IsRightHere slots.now (seen_row row.entry) (seen_verdict result) }
{
    let (source, dest) = (end_of(slots, row.source), end_of(slots, row.dest));
    if is_same(source, dest) {
        return Verdict::Proved;
    }
    Verdict::Refuted(one_of(source, dest))
}
