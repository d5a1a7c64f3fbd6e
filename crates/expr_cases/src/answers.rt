use crate::shapes::show;
use crate::words::tokens_of;
use case_lines::Cases;
use std::alloc::{AllocError, Global};
use std::mem;
use vl_expr::{ReadError, parse_expr, read_expr, read_list, read_select};
use vl_tree::{Place, Stop, Token, TokenList};

fn put_number(alloc: Global, out: &mut Vec<u8>, number: usize) -> Result<(), AllocError> {
    let digits = format!(in alloc; "{number}")?;
    out.extend_from_slice(digits.as_bytes())
}

// The file and the line of a place as one number.
fn number_of(place: &Place) -> usize {
    match place {
        Place::Line { file, line } => (*file as usize) * 1000 + (*line as usize),
        Place::Path(_name) => 0,
    }
}

fn put_stop(alloc: Global, out: &mut Vec<u8>, stop: &Stop) -> Result<(), AllocError> {
    match stop {
        Stop::Fault(fault) => {
            out.extend_from_slice(fault.code.number())?;
            out.push(b' ')?;
            put_number(alloc, out, number_of(&fault.place))
        }
        Stop::Limit(code) => out.extend_from_slice(code.number()),
        Stop::NoMemory => out.extend_from_slice(b"no memory"),
    }
}

fn put_error(out: &mut Vec<u8>, error: ReadError) -> Result<(), AllocError> {
    match error {
        ReadError::Refused => out.extend_from_slice(b"none"),
        ReadError::NoMemory => out.extend_from_slice(b"no memory"),
    }
}

fn put_parsed(
    alloc: Global,
    out: &mut Vec<u8>,
    tokens: &TokenList<'_>,
    at: usize,
) -> Result<(), AllocError> {
    match parse_expr(alloc, tokens, at) {
        Ok((tree, end)) => {
            show(out, &tree)?;
            out.push(b' ')?;
            put_number(alloc, out, end)
        }
        Err(stop) => put_stop(alloc, out, &stop),
    }
}

// The tree is not let go, since that takes stack for each operand of a sum.
fn put_end(
    alloc: Global,
    out: &mut Vec<u8>,
    tokens: &TokenList<'_>,
    at: usize,
) -> Result<(), AllocError> {
    match parse_expr(alloc, tokens, at) {
        Ok((tree, end)) => {
            mem::forget(tree);
            put_number(alloc, out, end)
        }
        Err(stop) => put_stop(alloc, out, &stop),
    }
}

fn put_expr(alloc: Global, out: &mut Vec<u8>, tokens: &[Token<'_>]) -> Result<(), AllocError> {
    match read_expr(alloc, tokens) {
        Ok((_tree, rest)) => put_number(alloc, out, rest.len()),
        Err(error) => put_error(out, error),
    }
}

fn put_list(alloc: Global, out: &mut Vec<u8>, tokens: &[Token<'_>]) -> Result<(), AllocError> {
    match read_list(alloc, tokens) {
        Ok((items, rest)) => {
            put_number(alloc, out, items.len())?;
            out.push(b' ')?;
            put_number(alloc, out, rest.len())
        }
        Err(error) => put_error(out, error),
    }
}

fn put_select(alloc: Global, out: &mut Vec<u8>, tokens: &[Token<'_>]) -> Result<(), AllocError> {
    match read_select(alloc, tokens) {
        Ok((_select, rest)) => put_number(alloc, out, rest.len()),
        Err(error) => put_error(out, error),
    }
}

// The answer of a call at the tokens of a text.
fn put_answer(
    alloc: Global,
    out: &mut Vec<u8>,
    call: &str,
    at: usize,
    text: &str,
) -> Result<(), AllocError> {
    match tokens_of(alloc, text) {
        Ok(tokens) => match call {
            "parse" => put_parsed(alloc, out, &tokens, at),
            "end" => put_end(alloc, out, &tokens, at),
            "expr" => put_expr(alloc, out, tokens.as_slice()),
            "list" => put_list(alloc, out, tokens.as_slice()),
            "select" => put_select(alloc, out, tokens.as_slice()),
            _ => out.extend_from_slice(b"no such call"),
        },
        Err(_error) => out.extend_from_slice(b"no memory"),
    }
}

// Whether the call begins at a place that its line names.
fn has_place(call: &str) -> bool {
    call == "parse" || call == "end"
}

/// Lines with the word of a call, each a case by itself.
#[derive(Drop)]
pub struct Expressions;

impl Cases for Expressions {
    /// The answer of the call that a line names.
    fn answer(&mut self, alloc: Global, line: &str) -> Result<Option<Vec<u8>>, AllocError> {
        let mut fields = line.split('\t');
        let call = fields.next().unwrap_or("");
        let at = if has_place(call) {
            fields.next().unwrap_or("").parse::<usize>().unwrap_or(0)
        } else {
            0
        };
        let mut out = Vec::new(alloc);
        put_answer(alloc, &mut out, call, at, fields.next().unwrap_or(""))?;
        Ok(Some(out))
    }
}
