//! Items by their places in a module: from a place to the items of the block that stands there.
#![tactic(auto, using(crate::proofs::Rules::rules))]

mod laws;
mod places;

pub use laws::blocks_stand_in_place;
pub use places::items_at;
