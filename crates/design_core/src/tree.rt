use crate::operators::{Binary, Unary};
use bits_core::{Bits, Items};
use sqlite_items::Boxed;

/// The result, an input or a local of a function.
#[derive(Clone, Copy, Debug, PartialEq, Eq)]
pub struct DLocal {
    pub length: u32,
    pub signed: bool,
}

/// What a left side names: a signal of the design, or a local of the function round it.
#[derive(Clone, Copy, Debug, PartialEq, Eq)]
pub enum DBase {
    Signal(u32),
    Local(u32),
}

/// An expression with its length and sign (IEEE 1364-2005, 5.4 and 5.5).
#[cycle(tree)]
#[derive(Drop)]
pub struct DExpr {
    pub length: u32,
    pub signed: bool,
    pub node: DNode,
}

/// What an expression is made of. A place `low` counts from 0 at the lowest bit.
/// In `SelectAt` the lowest bit taken is at the index minus `offset`, and where `down` is true at `offset` minus the index.
/// The first part of a `Concat` is the highest, and `Extend` brings its operand to the length of the expression.
#[cycle(tree)]
#[derive(Drop)]
pub enum DNode {
    Const(Bits),
    Signal(u32),
    Local(u32),
    Select {
        base: Boxed<DExpr>,
        low: i64,
    },
    SelectAt {
        base: Boxed<DExpr>,
        index: Boxed<DExpr>,
        offset: i64,
        down: bool,
    },
    Unary {
        op: Unary,
        a: Boxed<DExpr>,
    },
    Binary {
        op: Binary,
        a: Boxed<DExpr>,
        b: Boxed<DExpr>,
    },
    Mux {
        c: Boxed<DExpr>,
        a: Boxed<DExpr>,
        b: Boxed<DExpr>,
    },
    Extend {
        a: Boxed<DExpr>,
        by_sign: bool,
    },
    Concat(DExprList),
    Repeat {
        count: u32,
        part: Boxed<DExpr>,
    },
    Call {
        function: Boxed<DFunction>,
        arguments: DExprList,
    },
}

/// A function with its body (IEEE 1364-2005, 10.4). Local 0 is the result, then come the inputs, then the locals.
#[cycle(tree)]
#[derive(Drop)]
pub struct DFunction {
    pub length: u32,
    pub signed: bool,
    pub inputs: DLocalList,
    pub locals: DLocalList,
    pub body: DStmt,
}

/// The left side of an assignment. In `At` the lowest bit is placed as in a `SelectAt`; the first part of a `Concat` is the highest.
#[cycle(tree)]
#[derive(Drop)]
pub enum DLeft {
    Whole {
        base: DBase,
        length: u32,
    },
    Part {
        base: DBase,
        low: i64,
        length: u32,
    },
    At {
        base: DBase,
        index: Boxed<DExpr>,
        offset: i64,
        down: bool,
        length: u32,
    },
    Concat(DLeftList),
}

/// A statement of a process or a function. `Turns` has the unrolled turns of a loop.
#[cycle(tree)]
#[derive(Drop)]
pub enum DStmt {
    Block(DStmtList),
    Write {
        left: DLeft,
        right: DExpr,
        blocking: bool,
    },
    If {
        test: DExpr,
        yes: Boxed<DStmt>,
        no: Boxed<DStmt>,
    },
    Case {
        selector: DExpr,
        arms: DArmList,
        rest: Option<Boxed<DStmt>>,
    },
    Turns(DStmtList),
}

/// An arm of a `case`: it is taken where one of its items is the first of the statement that matches.
#[cycle(tree)]
#[derive(Drop)]
pub struct DArm {
    pub matches: DMatchList,
    pub body: DStmt,
}

/// An item of a `case`, with the free bits of a `casez` item: a free bit matches both values (IEEE 1364-2005, 9.5.1).
#[cycle(tree)]
#[derive(Drop)]
pub struct DMatch {
    pub value: DExpr,
    pub free: Option<Bits>,
}

pub type DExprList = Items<DExpr>;

pub type DLocalList = Items<DLocal>;

pub type DLeftList = Items<DLeft>;

pub type DStmtList = Items<DStmt>;

pub type DArmList = Items<DArm>;

pub type DMatchList = Items<DMatch>;
