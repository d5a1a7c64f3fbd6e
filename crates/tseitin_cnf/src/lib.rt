//! The formula of a net's node: a gate for each node that it reads, over all leaves of the net or over some of them.
#![tactic(auto)]

mod clauses;
mod encoding;
mod marking;
mod parts;

pub use encoding::{Encoded, encode, encode_part};
pub use parts::parts_agree;
