//! Bits that are known at a place of a body, with the trail of those that became known: branches are run, taken back and joined at the cost of what they wrote.
#![tactic(auto)]

mod known;

pub use known::{KnownBits, forget, has, learn, learn_all, meet, none};
