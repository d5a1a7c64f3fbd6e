//! The plain form of sources and tables.
#![tactic(auto)]

mod cut;
mod modules;
mod name_form;
mod names;
mod reserved;
mod table;
mod wires;

pub use cut::pieces;
pub use modules::{Assign, Module, Port, Right, read_module};
pub use names::Names;
pub use table::{Line, read_rows};
pub use wires::{Driver, Slot, Wires, read_source, read_wires};
