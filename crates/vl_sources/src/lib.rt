//! The modules of a source by name, with their parameters.
#![tactic(auto)]

mod laws;
mod sources;

pub use laws::modules_stand_in_place;
pub use sources::{KnownModules, known_modules};
