//! What every crate stands on: want of memory as an answer, and the one list type of the project.
#![tactic(auto)]

mod arithmetic;
mod bits;
mod duplicate;
mod items;
mod laws;
mod memory;
mod names;
mod places;

pub use bits::Bits;
pub use duplicate::Duplicate;
pub use items::Items;
pub use laws::{bits_keep_numbers, numbers_keep_bits, shift_left_multiplies, shift_right_divides};
pub use memory::NoMemory;
pub use names::{Bytes, File, FileList, Name, NameList, NumberList};
pub use places::Shift;

#[cfg(test)]
mod tests;
