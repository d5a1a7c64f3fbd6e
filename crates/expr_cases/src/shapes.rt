use std::alloc::AllocError;
use vl_tree::{Expr, Select};

/// The shape of a tree: `< >` are the brackets of the text, `( )` those around operators.
#[cycle(show)]
pub fn show(out: &mut Vec<u8>, tree: &Expr<'_>) -> Result<(), AllocError> {
    match tree {
        Expr::Number(token) => out.extend_from_slice(token.text),
        Expr::Name { name, selects } => {
            out.extend_from_slice(name.text)?;
            show_selects(out, selects.as_slice())
        }
        Expr::Call { name, arguments } => {
            out.extend_from_slice(name.text)?;
            out.extend_from_slice(b"(")?;
            show_list(out, arguments.as_slice())?;
            out.extend_from_slice(b")")
        }
        Expr::System { name, argument } => {
            out.extend_from_slice(name.text)?;
            out.extend_from_slice(b"(")?;
            show(out, argument.get())?;
            out.extend_from_slice(b")")
        }
        Expr::Concat(parts) => {
            out.extend_from_slice(b"{")?;
            show_list(out, parts.as_slice())?;
            out.extend_from_slice(b"}")
        }
        Expr::Repeat { count, parts } => {
            out.extend_from_slice(b"{")?;
            show(out, count.get())?;
            out.extend_from_slice(b"{")?;
            show_list(out, parts.as_slice())?;
            out.extend_from_slice(b"}}")
        }
        Expr::Group(inner) => {
            out.extend_from_slice(b"<")?;
            show(out, inner.get())?;
            out.extend_from_slice(b">")
        }
        Expr::Unary { op, operand } => {
            out.extend_from_slice(b"(")?;
            out.extend_from_slice(op.text)?;
            show(out, operand.get())?;
            out.extend_from_slice(b")")
        }
        Expr::Binary { op, left, right } => {
            out.extend_from_slice(b"(")?;
            show(out, left.get())?;
            out.extend_from_slice(op.text)?;
            show(out, right.get())?;
            out.extend_from_slice(b")")
        }
        Expr::Choice { test, yes, no } => {
            out.extend_from_slice(b"(")?;
            show(out, test.get())?;
            out.extend_from_slice(b"?")?;
            show(out, yes.get())?;
            out.extend_from_slice(b":")?;
            show(out, no.get())?;
            out.extend_from_slice(b")")
        }
    }
}

#[cycle(show)]
fn show_list(out: &mut Vec<u8>, parts: &[Expr<'_>]) -> Result<(), AllocError> {
    let mut between: &[u8] = b"";
    for part in parts {
        out.extend_from_slice(between)?;
        show(out, part)?;
        between = b",";
    }
    Ok(())
}

#[cycle(show)]
fn show_selects(out: &mut Vec<u8>, selects: &[Select<'_>]) -> Result<(), AllocError> {
    for select in selects {
        show_select(out, select)?;
    }
    Ok(())
}

#[cycle(show)]
fn show_select(out: &mut Vec<u8>, select: &Select<'_>) -> Result<(), AllocError> {
    out.extend_from_slice(b"[")?;
    match select {
        Select::Index(at) => show(out, at)?,
        Select::Range(high, low) => {
            show(out, high)?;
            out.extend_from_slice(b":")?;
            show(out, low)?;
        }
        Select::Up(at, width) => {
            show(out, at)?;
            out.extend_from_slice(b"+:")?;
            show(out, width)?;
        }
        Select::Down(at, width) => {
            show(out, at)?;
            out.extend_from_slice(b"-:")?;
            show(out, width)?;
        }
    }
    out.extend_from_slice(b"]")
}
