//! The scopes and signals of a design, from the scopes of its source, and where the names in them are declared.
#![tactic(auto)]

mod laws;
mod signals;
mod sites;

pub use laws::{names_have_sites, signals_have_numbers};
pub use signals::{NumberRow, NumberRows, Signals, design_scopes, signals_of};
pub use sites::{Site, number, site_of};
