//! Tokens, trees and faults of the source language (IEEE 1364-2005, the synthesizable part that this tool takes).
#![tactic(auto)]

mod expressions;
mod faults;
mod laws;
mod modules;
mod order;
mod outcome;
mod reserved;
mod statements;
mod tokens;
mod words;

pub use expressions::{Expr, ExprList, Select, SelectList};
pub use faults::{Code, Fault, Place, Stop};
pub use laws::{each_word_is_listed, lowest_is_lowest, lowest_of_both};
pub use modules::{
    Ansi, AnsiHead, AnsiList, Assignment, AssignmentList, Binds, Block, ConstantValue,
    ConstantValueList, Dir, Gate, GateInstance, GateInstanceList, GateItem, Gen, GenArm,
    GenArmList, Instance, InstanceItem, InstanceList, Item, ItemList, LoopHead, Module, NamedBind,
    NamedBindList, NetItem, OrderedBindList, ParameterItem, Pdecl, PdeclList, PortItem, Ports,
    Process, Source,
};
pub use order::{lower, lowest, where_true};
pub use outcome::{Halt, stop_at};
pub use statements::{
    AssignWord, CaseWord, Citem, CitemList, Edge, EdgeList, EdgeWord, Event, Fdecl, FdeclList,
    Function, FunctionInput, FunctionInputList, FunctionWord, Lval, LvalList, NetWord,
    ParameterWord, Ptype, Range, Stmt, StmtList, Var, VarList,
};
pub use tokens::{Span, Token, TokenKind, TokenList, token_name};
pub use words::{Word, next_word, same_word, word_of, word_of_text};
