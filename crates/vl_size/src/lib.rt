//! Lengths and signs of expressions (IEEE 1364-2005, 5.4 and 5.5).
#![tactic(auto, using(crate::proofs::Rules::nodes))]

mod chain;
mod constant;
mod gap;
mod laws;
mod nodes;
mod numbers;
mod operators;
pub mod own;
pub mod placed;
mod sizes;
mod table;
mod tree;

pub use chain::{Chain, Link, chain_of};
pub use constant::{Const, CountList, behind_next, next_value, whole};
pub use laws::{faults_are_lowest, operands_share};
pub use nodes::{concat_node, is_falling, total, width_of};
pub use numbers::{capped, number_size};
pub use operators::{
    BinaryOperator, SystemFunction, UnaryOperator, binary_operator, system_function, unary_operator,
};
pub use sizes::{SizedExpr, SizedExprList, size, size_in};
pub use table::{LengthList, NameKind, SizeEntry, SizeEntryList, SizeTable, Sizes};
pub use tree::{Narrow, Node, Operands, Size, Sizing};
