//! Black boxes of a design: the scopes of given modules, and the items that are left where some boxes are closed.
#![tactic(auto)]

mod cut;
mod scopes;

pub use cut::{boxed_scopes, cut_items};
pub use scopes::boxes;
