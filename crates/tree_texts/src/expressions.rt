use crate::text::TreeText;
use vl_tree::{Expr, Select};

/// An expression: `< >` are the brackets of the text, `( )` those around operators.
#[cycle(show)]
pub fn show(tree: &Expr<'_>, out: &mut TreeText) {
    match tree {
        Expr::Number(token) => out.put(token.text),
        Expr::Name { name, selects } => {
            out.put(name.text);
            show_selects(selects.as_slice(), out)
        }
        Expr::Call { name, arguments } => {
            out.put(name.text);
            out.put(b"(");
            show_list(arguments.as_slice(), out);
            out.put(b")")
        }
        Expr::System { name, argument } => {
            out.put(name.text);
            out.put(b"(");
            show(argument.get(), out);
            out.put(b")")
        }
        Expr::Concat(parts) => {
            out.put(b"{");
            show_list(parts.as_slice(), out);
            out.put(b"}")
        }
        Expr::Repeat { count, parts } => {
            out.put(b"{");
            show(count.get(), out);
            out.put(b"{");
            show_list(parts.as_slice(), out);
            out.put(b"}}")
        }
        Expr::Group(inner) => {
            out.put(b"<");
            show(inner.get(), out);
            out.put(b">")
        }
        Expr::Unary { op, operand } => {
            out.put(b"(");
            out.put(op.text);
            show(operand.get(), out);
            out.put(b")")
        }
        Expr::Binary { op, left, right } => {
            out.put(b"(");
            show(left.get(), out);
            out.put(op.text);
            show(right.get(), out);
            out.put(b")")
        }
        Expr::Choice { test, yes, no } => {
            out.put(b"(");
            show(test.get(), out);
            out.put(b"?");
            show(yes.get(), out);
            out.put(b":");
            show(no.get(), out);
            out.put(b")")
        }
    }
}

/// Expressions, with commas between.
#[cycle(show)]
pub fn show_list(parts: &[Expr<'_>], out: &mut TreeText) {
    let mut between: &[u8] = b"";
    for part in parts {
        out.put(between);
        show(part, out);
        between = b",";
    }
}

/// The selects behind a name, each in `[ ]`.
#[cycle(show)]
pub fn show_selects(selects: &[Select<'_>], out: &mut TreeText) {
    for select in selects {
        show_select(select, out);
    }
}

#[cycle(show)]
fn show_select(select: &Select<'_>, out: &mut TreeText) {
    out.put(b"[");
    match select {
        Select::Index(at) => show(at, out),
        Select::Range(high, low) => {
            show(high, out);
            out.put(b":");
            show(low, out);
        }
        Select::Up(at, width) => {
            show(at, out);
            out.put(b"+:");
            show(width, out);
        }
        Select::Down(at, width) => {
            show(at, out);
            out.put(b"-:");
            show(width, out);
        }
    }
    out.put(b"]")
}
