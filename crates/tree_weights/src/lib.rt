//! What expressions, left sides, statements and items weigh, by the definitions of `design_core`: a weight is taken from a number that says how much there is
//! room for. Linear in the tree; a chain of first operands, as of a sum, or of last branches, as of `if`s and choices, takes no stack.
#![tactic(auto, using(crate::proofs::Rules::weights))]

mod items;
mod lengths;
mod operators;
mod weights;

pub use items::spend_item;
pub use lengths::{Locals, no_locals};
pub use weights::{spend_expr, spend_left, spend_length, spend_stmt};
