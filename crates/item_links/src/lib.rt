//! Which item drives each bit, and what each item reads within the cycle, by the numbers of bits; or the first signal with a bit that two items drive.
#![tactic(auto)]

mod drivers;
mod lining;
mod linking;
mod numbers;
mod reading;

pub use lining::{LineStop, line_up};
pub use linking::{LinkStop, link};
pub use numbers::{span_of, starts};
pub use reading::{is_own, stamp};
