//! The last step of elaboration: register bits with their power-up values, the items that keep bits, and the design as a whole.
#![tactic(auto)]

mod assembly;
mod bits;
mod drives;
mod keepers;
mod known;
mod marks;
mod values;

pub use assembly::{AssemblyStop, assemble, design_of};
pub use keepers::keeper;
