//! Plain assigns in pieces of one bit: an assign that only moves bits and constants, between signals, selects at fixed places and concatenations, is an assign
//! for each bit of its left side.
#![tactic(auto, using(crate::proofs::Rules::sides))]

mod bits;
mod laws;
mod lefts;
mod pieces;
mod rights;

pub use bits::{SignalBit, Source, SourceList, Target, TargetList};
pub use laws::{
    bits_mean_the_sides, pieces_are_items, pieces_mean_the_assign, pieces_read_no_more,
};
pub use lefts::{is_plain_left, left_bits};
pub use pieces::bit_assigns;
pub use rights::{is_plain_right, right_bits};
