//! The call of one function, as a tree that is formed: for cases.
#![tactic(auto)]

mod called;

pub use called::call;
