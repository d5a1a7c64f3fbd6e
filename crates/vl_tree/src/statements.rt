use crate::expressions::{Expr, ExprList, SelectList};
use crate::tokens::{Token, TokenList};
use bits_core::Items;
use sqlite_items::Boxed;

/// `[left:right]`.
#[derive(Drop)]
pub struct Range<'f> {
    pub left: Expr<'f>,
    pub right: Expr<'f>,
}

/// `integer`, or `signed` and a range, of which one at least stands.
#[derive(Drop)]
pub enum Ptype<'f> {
    Integer,
    Vector {
        signed: bool,
        range: Option<Range<'f>>,
    },
}

/// `wire` or `reg`.
#[derive(Clone, Copy, Debug, PartialEq, Eq)]
pub enum NetWord {
    Wire,
    Reg,
}

/// `parameter` or `localparam`.
#[derive(Clone, Copy, Debug, PartialEq, Eq)]
pub enum ParameterWord {
    Parameter,
    LocalParam,
}

/// A declared name, with the value that it begins with.
#[derive(Drop)]
pub struct Var<'f> {
    pub name: Token<'f>,
    pub value: Option<Expr<'f>>,
}

/// A list of declared names.
pub type VarList<'f> = Items<Var<'f>>;

/// What is written: a name with its selects, or a concatenation.
#[derive(Drop)]
pub enum Lval<'f> {
    Name {
        name: Token<'f>,
        selects: SelectList<'f>,
    },
    Concat(Items<Lval<'f>>),
}

/// The parts of a concatenation that is written.
pub type LvalList<'f> = Items<Lval<'f>>;

/// `posedge` or `negedge`.
#[derive(Clone, Copy, Debug, PartialEq, Eq)]
pub enum EdgeWord {
    Posedge,
    Negedge,
}

/// One event of a list.
#[derive(Drop)]
pub struct Edge<'f> {
    pub edge: Option<EdgeWord>,
    pub name: Token<'f>,
    pub selects: SelectList<'f>,
}

/// The events of a list, whichever words join them.
pub type EdgeList<'f> = Items<Edge<'f>>;

/// What a process waits for: `*`, `(*)`, or a list of events.
#[derive(Drop)]
pub enum Event<'f> {
    Any,
    AnyInBrackets,
    Edges(EdgeList<'f>),
}

/// `case` or `casez`.
#[derive(Clone, Copy, Debug, PartialEq, Eq)]
pub enum CaseWord {
    Case,
    CaseZ,
}

/// `=` or `<=`.
#[derive(Clone, Copy, Debug, PartialEq, Eq)]
pub enum AssignWord {
    Blocking,
    Nonblocking,
}

/// A statement.
#[cycle(stmt)]
pub enum Stmt<'f> {
    Empty,
    Begin {
        name: Option<Token<'f>>,
        body: Items<Stmt<'f>>,
    },
    If {
        test: Expr<'f>,
        yes: Boxed<Stmt<'f>>,
        no: Option<Boxed<Stmt<'f>>>,
    },
    Case {
        word: CaseWord,
        selector: Expr<'f>,
        items: Items<Citem<'f>>,
    },
    For {
        start_name: Token<'f>,
        start: Boxed<Expr<'f>>,
        test: Boxed<Expr<'f>>,
        step_name: Token<'f>,
        step: Boxed<Expr<'f>>,
        body: Boxed<Stmt<'f>>,
    },
    Assign {
        left: Lval<'f>,
        word: AssignWord,
        right: Expr<'f>,
    },
}

impl<'f> Drop for Stmt<'f> {
    /// Lets go of a statement and of those that it holds.
    #[cycle(stmt)]
    fn drop(self) {
        match self {
            Stmt::Empty => {}
            Stmt::Begin { name: _, body } => let_go_all(body),
            Stmt::If {
                test: _test,
                yes,
                no,
            } => {
                let_go(yes);
                if let Some(no) = no {
                    let_go(no);
                }
            }
            Stmt::Case {
                word: _,
                selector: _selector,
                items,
            } => let_go_arms(items),
            Stmt::For {
                start_name: _,
                start: _start,
                test: _test,
                step_name: _,
                step: _step,
                body,
            } => let_go(body),
            Stmt::Assign {
                left: _left,
                word: _,
                right: _right,
            } => {}
        }
    }
}

#[cycle(stmt)]
fn let_go(boxed: Boxed<Stmt<'_>>) {
    let _inner = boxed.into_inner();
}

#[cycle(stmt)]
fn let_go_all(list: Items<Stmt<'_>>) {
    let mut list = list.into_vec();
    while let Some(_last) = list.pop() {}
    list.destroy_empty();
}

#[cycle(stmt)]
fn let_go_arms(list: Items<Citem<'_>>) {
    let mut list = list.into_vec();
    while let Some(_last) = list.pop() {}
    list.destroy_empty();
}

/// An arm of a `case` statement.
#[cycle(stmt)]
#[derive(Drop)]
pub enum Citem<'f> {
    Match {
        values: ExprList<'f>,
        body: Stmt<'f>,
    },
    Default(Stmt<'f>),
}

/// A list of statements.
pub type StmtList<'f> = Items<Stmt<'f>>;

/// The arms of a `case` statement.
pub type CitemList<'f> = Items<Citem<'f>>;

/// An input in a function's head.
#[derive(Drop)]
pub struct FunctionInput<'f> {
    pub signed: bool,
    pub range: Option<Range<'f>>,
    pub name: Token<'f>,
}

/// The inputs in a function's head.
pub type FunctionInputList<'f> = Items<FunctionInput<'f>>;

/// `input` or `reg` in a function.
#[derive(Clone, Copy, Debug, PartialEq, Eq)]
pub enum FunctionWord {
    Input,
    Reg,
}

/// A declaration in a function.
#[derive(Drop)]
pub enum Fdecl<'f> {
    Vector {
        word: FunctionWord,
        signed: bool,
        range: Option<Range<'f>>,
        names: TokenList<'f>,
    },
    Integer(TokenList<'f>),
}

/// The declarations in a function.
pub type FdeclList<'f> = Items<Fdecl<'f>>;

/// A function.
#[derive(Drop)]
pub struct Function<'f> {
    pub automatic: bool,
    pub result_type: Option<Ptype<'f>>,
    pub name: Token<'f>,
    pub inputs: Option<FunctionInputList<'f>>,
    pub declarations: FdeclList<'f>,
    pub body: Boxed<Stmt<'f>>,
}
