//! Circuits: the operators of the language as gates of a net, and nodes of a net as values of expressions. Gates are pushed as they come:
//! nothing is folded or shared.
#![tactic(auto)]

mod arithmetic;
mod gates;
mod net_domain;
mod operators;
mod places;
mod shifts;
mod words;

pub use arithmetic::{below, difference, negation, product, sum};
pub use gates::{Gate, and_gate, join_gate, mux_gate, not_gate, or_gate, xnor_gate, xor_gate};
pub use net_domain::NetDomain;
pub use operators::{binary_nodes, unary_nodes};
pub use places::{constant_nodes, copy_nodes, extend_nodes, place_nodes, select_nodes};
pub use shifts::{shifted_down, shifted_up};
pub use words::{Reduction, choose_all, invert_all, join_all, reduce, truth};
