//! Reading declarations of ports, nets, variables and constants, in a module and in its head (IEEE 1364-2005, A.1.3, A.2.1, the part that this tool takes).
#![tactic(auto)]

mod declarations;
mod ports;

pub use declarations::{Ranges, Vars, constants_item, nets_item, ports_item, ptype};
pub use ports::{parameter_part, port_part};
