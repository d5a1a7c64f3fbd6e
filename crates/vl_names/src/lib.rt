//! The names of a scope and what they stand for; they are sought in the scope, then outwards to its module (IEEE 1364-2005, 12.7).
#![tactic(auto)]

mod index;
mod outward;
mod table;

pub use index::Index;
pub use outward::{Outside, PlaceList, Reach, Scope, parent_at};
pub use table::{Kind, Slot, Table};
