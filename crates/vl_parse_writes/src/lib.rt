//! Reading the parts of statements that hold no statement: writes, the values of arms, and events (IEEE 1364-2005, A.6.2, A.6.5 and A.6.7, the part that this tool
//! takes).
#![tactic(auto)]

mod conditions;
mod events;
mod writes;

pub use conditions::{Condition, kept_if};
pub use events::event_control;
pub use writes::{arm_values, loop_of, write};
