use crate::expressions::{show, show_list, show_selects};
use crate::text::TreeText;
use crate::words::{put_name, put_range, put_type};
use vl_tree::{
    AssignWord, CaseWord, Citem, Edge, EdgeWord, Event, Fdecl, Function, FunctionInput,
    FunctionWord, Lval, Stmt, Token,
};

/// What is written: a name with its selects, or parts in braces.
#[cycle(lval)]
pub fn put_left(left: &Lval<'_>, out: &mut TreeText) {
    match left {
        Lval::Name { name, selects } => {
            out.put(name.text);
            show_selects(selects.as_slice(), out)
        }
        Lval::Concat(parts) => {
            out.put(b"{");
            put_lefts(parts.as_slice(), out);
            out.put(b"}")
        }
    }
}

#[cycle(lval)]
fn put_lefts(parts: &[Lval<'_>], out: &mut TreeText) {
    let mut between: &[u8] = b"";
    for part in parts {
        out.put(between);
        put_left(part, out);
        between = b",";
    }
}

/// The name of a block, behind a colon.
pub fn put_label(name: &Option<Token<'_>>, out: &mut TreeText) {
    match name {
        Some(name) => {
            out.put(b":");
            out.put(name.text)
        }
        None => {}
    }
}

/// A statement, with `( )` around each but the empty one.
#[cycle(stmt)]
pub fn put_statement(statement: &Stmt<'_>, out: &mut TreeText) {
    match statement {
        Stmt::Empty => out.put(b";"),
        Stmt::Begin { name, body } => {
            out.put(b"(begin");
            put_label(name, out);
            put_statements(body.as_slice(), out);
            out.put(b")")
        }
        Stmt::If { test, yes, no } => {
            out.put(b"(if ");
            show(test, out);
            out.put(b" ");
            put_statement(yes.get(), out);
            if let Some(no) = no {
                out.put(b" else ");
                put_statement(no.get(), out);
            }
            out.put(b")")
        }
        Stmt::Case {
            word,
            selector,
            items,
        } => {
            put_case_word(*word, out);
            show(selector, out);
            put_arms(items.as_slice(), out);
            out.put(b")")
        }
        Stmt::For {
            start_name,
            start,
            test,
            step_name,
            step,
            body,
        } => {
            out.put(b"(for ");
            out.put(start_name.text);
            out.put(b"=");
            show(start.get(), out);
            out.put(b" ");
            show(test.get(), out);
            out.put(b" ");
            out.put(step_name.text);
            out.put(b"=");
            show(step.get(), out);
            out.put(b" ");
            put_statement(body.get(), out);
            out.put(b")")
        }
        Stmt::Assign { left, word, right } => {
            out.put(b"(");
            put_left(left, out);
            put_assign_word(*word, out);
            show(right, out);
            out.put(b")")
        }
    }
}

#[cycle(stmt)]
fn put_statements(body: &[Stmt<'_>], out: &mut TreeText) {
    for statement in body {
        out.put(b" ");
        put_statement(statement, out);
    }
}

#[cycle(stmt)]
fn put_arms(arms: &[Citem<'_>], out: &mut TreeText) {
    for arm in arms {
        put_arm(arm, out);
    }
}

#[cycle(stmt)]
fn put_arm(arm: &Citem<'_>, out: &mut TreeText) {
    match arm {
        Citem::Match { values, body } => {
            out.put(b" (");
            show_list(values.as_slice(), out);
            out.put(b": ");
            put_statement(body, out);
        }
        Citem::Default(body) => {
            out.put(b" (default ");
            put_statement(body, out);
        }
    }
    out.put(b")")
}

fn put_case_word(word: CaseWord, out: &mut TreeText) {
    match word {
        CaseWord::Case => out.put(b"(case "),
        CaseWord::CaseZ => out.put(b"(casez "),
    }
}

fn put_assign_word(word: AssignWord, out: &mut TreeText) {
    match word {
        AssignWord::Blocking => out.put(b"="),
        AssignWord::Nonblocking => out.put(b"<="),
    }
}

fn put_edge(edge: &Edge<'_>, out: &mut TreeText) {
    match edge.edge {
        Some(EdgeWord::Posedge) => out.put(b"posedge "),
        Some(EdgeWord::Negedge) => out.put(b"negedge "),
        None => {}
    }
    out.put(edge.name.text);
    show_selects(edge.selects.as_slice(), out)
}

fn put_edges(edges: &[Edge<'_>], out: &mut TreeText) {
    let mut between: &[u8] = b"";
    for edge in edges {
        out.put(between);
        put_edge(edge, out);
        between = b",";
    }
}

/// What a process waits for.
pub fn put_event(event: &Event<'_>, out: &mut TreeText) {
    match event {
        Event::Any => out.put(b"*"),
        Event::AnyInBrackets => out.put(b"<*>"),
        Event::Edges(edges) => {
            out.put(b"<");
            put_edges(edges.as_slice(), out);
            out.put(b">")
        }
    }
}

fn put_input(input: &FunctionInput<'_>, out: &mut TreeText) {
    out.put(b" [input");
    put_range(&input.range, input.signed, out);
    put_name(&input.name, out);
    out.put(b"]")
}

fn put_inputs(inputs: &[FunctionInput<'_>], out: &mut TreeText) {
    out.put(b" <");
    for input in inputs {
        put_input(input, out);
    }
    out.put(b" >")
}

fn put_names(names: &[Token<'_>], out: &mut TreeText) {
    for name in names {
        put_name(name, out);
    }
}

fn put_declaration(declaration: &Fdecl<'_>, out: &mut TreeText) {
    match declaration {
        Fdecl::Vector {
            word,
            signed,
            range,
            names,
        } => {
            match word {
                FunctionWord::Input => out.put(b" (input"),
                FunctionWord::Reg => out.put(b" (reg"),
            }
            put_range(range, *signed, out);
            put_names(names.as_slice(), out);
        }
        Fdecl::Integer(names) => {
            out.put(b" (integer");
            put_names(names.as_slice(), out);
        }
    }
    out.put(b")")
}

fn put_declarations(all: &[Fdecl<'_>], out: &mut TreeText) {
    for declaration in all {
        put_declaration(declaration, out);
    }
}

/// A function.
pub fn put_function(function: &Function<'_>, out: &mut TreeText) {
    out.put(b"function");
    if function.automatic {
        out.put(b" automatic");
    }
    put_type(&function.result_type, out);
    put_name(&function.name, out);
    if let Some(inputs) = &function.inputs {
        put_inputs(inputs.as_slice(), out);
    }
    put_declarations(function.declarations.as_slice(), out);
    out.put(b" ");
    put_statement(function.body.get(), out)
}
