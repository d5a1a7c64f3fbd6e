//! A design: signals by number, items with their expressions and statements, and power-up values; and what it means, in specs/.
#![tactic(auto)]

mod copies;
mod design;
mod duplicates;
mod items;
mod operators;
mod place;
mod signals;
mod tree;

pub use design::Design;
pub use items::{DReset, Item, ItemList, PowerUp, PowerUpList, weight};
pub use operators::{Binary, Unary};
pub use place::{BitList, BitRef, ItemNumbers, ScopeNumbers};
pub use signals::{DScopes, Scope, Signal, SignalList};
pub use tree::{
    DArm, DArmList, DBase, DExpr, DExprList, DFunction, DLeft, DLeftList, DLocal, DLocalList,
    DMatch, DMatchList, DNode, DStmt, DStmtList,
};
