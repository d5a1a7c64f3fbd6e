//! Trees that are formed by the way they are made: each function answers none where its parts do not fit each other.
#![tactic(auto)]

mod expressions;
mod lefts;
mod statements;

pub use expressions::{
    binary, concat, constant, extend, fits, is_narrow, is_vector, local, mux, repeat, select,
    select_at, signal, unary, with_sign,
};
pub use lefts::{SizedLeft, at, pair, part, whole};
pub use statements::{arm, block, both, branch, case, case_else, free_item, item, turns, write};
