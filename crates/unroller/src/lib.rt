//! A cycle net copied for each of some cycles, from any stored values or from those at power-up.
#![tactic(auto)]

mod frames;
mod setup;
mod tables;
mod unrolling;

pub use frames::{FrameList, Unrolled};
pub use setup::{Fixed, FixedBit, FixedBitList, FixedReset, StartState};
pub use unrolling::unroll;
