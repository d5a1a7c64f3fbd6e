use bits_core::NoMemory;
use std::alloc::{AllocError, Global};
use vl_expr::parse_expr;
use vl_lex::lex;
use vl_tree::{Code, Expr, Stop, TokenList};

/// Why a case has no value: a refusal, or want of memory.
#[derive(Clone, Copy, Debug)]
pub enum Failure {
    Refused(Code),
    NoMemory,
}

impl From<AllocError> for Failure {
    fn from(_: AllocError) -> Failure {
        Failure::NoMemory
    }
}

impl From<NoMemory> for Failure {
    fn from(_: NoMemory) -> Failure {
        Failure::NoMemory
    }
}

impl From<Stop> for Failure {
    fn from(stop: Stop) -> Failure {
        match stop {
            Stop::Fault(fault) => Failure::Refused(fault.code),
            Stop::Limit(code) => Failure::Refused(code),
            Stop::NoMemory => Failure::NoMemory,
        }
    }
}

/// The expression that the whole of a text is.
pub fn read_whole<'f>(alloc: Global, text: &'f str) -> Result<Expr<'f>, Failure> {
    let bytes = text.as_bytes();
    if bytes.len() > 16_777_216 {
        return Err(Failure::Refused(Code::FileBytes));
    }
    let tokens: TokenList = lex(alloc, 0, bytes)?;
    let (expr, end) = parse_expr(alloc, &tokens, 0)?;
    if end < tokens.len() {
        return Err(Failure::Refused(Code::Syntax));
    }
    Ok(expr)
}

/// Writes the number of the code, or that memory was wanting.
pub fn put_failure(out: &mut Vec<u8>, failure: Failure) -> Result<(), AllocError> {
    match failure {
        Failure::Refused(code) => out.extend_from_slice(code.number())?,
        Failure::NoMemory => out.extend_from_slice(b"no memory")?,
    }
    Ok(())
}
