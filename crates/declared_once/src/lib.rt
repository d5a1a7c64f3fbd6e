//! That each name of a scope is declared once, or once by its direction and once by its type where it is a port (IEEE 1364-2005, 3.11 and 12.3.3).
#![tactic(auto)]

mod declared;
mod laws;

pub use declared::{Declared, Judgement, Role};
pub use laws::kept_names_tell;
