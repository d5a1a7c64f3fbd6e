use crate::expressions::show;
use crate::text::TreeText;
use vl_tree::{Expr, Ptype, Range, Token, Var};

/// A name behind a blank.
pub fn put_name(name: &Token<'_>, out: &mut TreeText) {
    out.put(b" ");
    out.put(name.text)
}

/// A sign and a range, each behind a blank, where they stand.
pub fn put_range(range: &Option<Range<'_>>, signed: bool, out: &mut TreeText) {
    if signed {
        out.put(b" signed");
    }
    if let Some(range) = range {
        out.put(b" [");
        show(&range.left, out);
        out.put(b":");
        show(&range.right, out);
        out.put(b"]");
    }
}

/// A type, where one stands: `integer`, or `of` and a sign and a range.
pub fn put_type(ptype: &Option<Ptype<'_>>, out: &mut TreeText) {
    match ptype {
        None => {}
        Some(Ptype::Integer) => out.put(b" integer"),
        Some(Ptype::Vector { signed, range }) => {
            out.put(b" of");
            put_range(range, *signed, out)
        }
    }
}

/// A name and its value, behind a blank.
pub fn put_value(name: &Token<'_>, value: &Expr<'_>, out: &mut TreeText) {
    put_name(name, out);
    out.put(b"=");
    show(value, out)
}

/// A declared name, with its value where one stands.
pub fn put_var(var: &Var<'_>, out: &mut TreeText) {
    match &var.value {
        Some(value) => put_value(&var.name, value, out),
        None => put_name(&var.name, out),
    }
}
