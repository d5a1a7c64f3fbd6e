// A text that grows.
ghost use Rattle.std.specs.Prelude.{List, ℕ, Option};
ghost use Rattle.shelf_io.specs.Sink.{WriteCause, WritesAll};

/// A write that took less than the whole piece.
#[derive(Clone, Copy, Debug, PartialEq, Eq)]
pub enum SinkError {
    Failed,
}

/// A text that grows at its end. What it has taken may be told or not.
pub trait Sink {
    /// The bytes taken, where the sink tells them.
    ghost taken: { Self → Option (List ℕ) };

    /// How often a write has failed; the count stands still at the greatest `u64`.
    ghost faults: { Self → ℕ };

    /// Adds the bytes at the end, or some first part of them and then fails. A failure comes only where the count of faults
    /// rose in this call. Takes no memory.
    fn write_all(&mut self, bytes: &[u8]) -> Result<(), SinkError>
        ensures cause { WriteCause (faults self.old) (faults self.new) result }
        ensures bytes { WritesAll (taken self.old) (taken self.new) bytes.now result };
}
