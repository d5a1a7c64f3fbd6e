ghost use Rattle.stmt_exec.specs.Writes.{BlockingWrites, LocalWrites, StoredWrites};

/// A law: what `write_all` does to values is what an assignment does in the state that they stand for (IEEE 1364-2005, 9.2),
/// to signals at once, to signals at the end of the cycle, and to the locals of a function.
pub fn writes_are_assignments()
    ensures at_once { BlockingWrites }
    ensures stored { StoredWrites }
    ensures local { LocalWrites }
{}
