//! What a program reads from and writes to: files by their names, and a text that grows. Each is a trait with a count of
//! faults, so that a caller's contract can say that a fault is answered only where one came.
#![tactic(auto)]

mod mem_shelf;
mod mem_sink;
mod shelf;
mod sink;

pub use mem_shelf::MemShelf;
pub use mem_sink::MemSink;
pub use shelf::{Shelf, ShelfError};
pub use sink::{Sink, SinkError};

#[cfg(test)]
mod tests;
