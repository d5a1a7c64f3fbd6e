use crate::tokens::Token;
use bits_core::Items;
use sqlite_items::Boxed;

/// An expression.
#[cycle(expr)]
#[derive(Debug)]
pub enum Expr<'f> {
    Number(Token<'f>),
    Name {
        name: Token<'f>,
        selects: Items<Select<'f>>,
    },
    Call {
        name: Token<'f>,
        arguments: Items<Expr<'f>>,
    },
    System {
        name: Token<'f>,
        argument: Boxed<Expr<'f>>,
    },
    Concat(Items<Expr<'f>>),
    Repeat {
        count: Boxed<Expr<'f>>,
        parts: Items<Expr<'f>>,
    },
    Group(Boxed<Expr<'f>>),
    Unary {
        op: Token<'f>,
        operand: Boxed<Expr<'f>>,
    },
    Binary {
        op: Token<'f>,
        left: Boxed<Expr<'f>>,
        right: Boxed<Expr<'f>>,
    },
    Choice {
        test: Boxed<Expr<'f>>,
        yes: Boxed<Expr<'f>>,
        no: Boxed<Expr<'f>>,
    },
}

impl<'f> Drop for Expr<'f> {
    /// Lets go of a chain of operators, choices or brackets by a loop, so that its length takes no stack.
    #[cycle(expr)]
    fn drop(mut self) {
        loop {
            match self {
                Expr::Binary { op: _, left, right } => {
                    let_go(right);
                    self = left.into_inner();
                }
                Expr::Choice { test, yes, no } => {
                    let_go(test);
                    let_go(yes);
                    self = no.into_inner();
                }
                Expr::Unary { op: _, operand } => self = operand.into_inner(),
                Expr::Group(inner) => self = inner.into_inner(),
                Expr::System { name: _, argument } => self = argument.into_inner(),
                Expr::Repeat { count, parts } => {
                    let_go_all(parts);
                    self = count.into_inner();
                }
                Expr::Number(_) => return,
                Expr::Name { name: _, selects } => {
                    let_go_selects(selects);
                    return;
                }
                Expr::Call { name: _, arguments } => {
                    let_go_all(arguments);
                    return;
                }
                Expr::Concat(parts) => {
                    let_go_all(parts);
                    return;
                }
            }
        }
    }
}

#[cycle(expr)]
fn let_go(boxed: Boxed<Expr<'_>>) {
    let _inner = boxed.into_inner();
}

#[cycle(expr)]
fn let_go_all(list: Items<Expr<'_>>) {
    let mut list = list.into_vec();
    while let Some(_last) = list.pop() {}
    list.destroy_empty();
}

#[cycle(expr)]
fn let_go_selects(list: Items<Select<'_>>) {
    let mut list = list.into_vec();
    while let Some(_last) = list.pop() {}
    list.destroy_empty();
}

/// What stands in brackets behind a name: `[e]`, `[e:e]`, `[e+:e]` or `[e-:e]`.
#[cycle(expr)]
#[derive(Debug, Drop)]
pub enum Select<'f> {
    Index(Expr<'f>),
    Range(Expr<'f>, Expr<'f>),
    Up(Expr<'f>, Expr<'f>),
    Down(Expr<'f>, Expr<'f>),
}

/// A list of expressions.
pub type ExprList<'f> = Items<Expr<'f>>;

/// The selects behind a name.
pub type SelectList<'f> = Items<Select<'f>>;
