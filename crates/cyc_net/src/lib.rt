//! Nets of bit nodes, and the net of one clock cycle.
#![tactic(auto)]

mod cycle;
mod laws;
mod net;
mod node;

pub use cycle::{BitLeaf, BitNode, CycleNet, LeafList, NodeList};
pub use laws::{leaves_decide, nodes_are_gates, worth_is_leaf};
pub use net::Net;
pub use node::{Node, NodeId};

#[cfg(test)]
mod tests;
