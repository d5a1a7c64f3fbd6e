use std::alloc::{AllocError, Global};
use vl_lex::Walk;
use vl_tree::{Place, Stop, Token, TokenList};

// The most tokens that are written out.
const MOST_WRITTEN: usize = 40;

fn put_number(alloc: Global, out: &mut Vec<u8>, number: usize) -> Result<(), AllocError> {
    let digits = format!(in alloc; "{number}")?;
    out.extend_from_slice(digits.as_bytes())
}

// The text, the file and the line of a token; with `!` where undeclared names may be no nets.
fn put_token(alloc: Global, out: &mut Vec<u8>, token: &Token<'_>) -> Result<(), AllocError> {
    out.push(b' ')?;
    out.extend_from_slice(token.text)?;
    out.push(b'@')?;
    put_number(alloc, out, token.span.file as usize)?;
    out.push(b'.')?;
    put_number(alloc, out, token.span.line as usize)?;
    if !token.implicit {
        out.push(b'!')?;
    }
    Ok(())
}

fn put_tokens(alloc: Global, out: &mut Vec<u8>, tokens: &[Token<'_>]) -> Result<(), AllocError> {
    out.extend_from_slice(b"ok ")?;
    put_number(alloc, out, tokens.len())?;
    if tokens.len() <= MOST_WRITTEN {
        for token in tokens {
            put_token(alloc, out, token)?;
        }
    }
    Ok(())
}

fn put_place(alloc: Global, out: &mut Vec<u8>, place: &Place) -> Result<(), AllocError> {
    match place {
        Place::Line { file, line } => {
            out.push(b' ')?;
            put_number(alloc, out, *file as usize)?;
            out.push(b' ')?;
            put_number(alloc, out, *line as usize)
        }
        Place::Path(_) => Ok(()),
    }
}

fn put_stop(alloc: Global, out: &mut Vec<u8>, stop: &Stop) -> Result<(), AllocError> {
    match stop {
        Stop::Fault(fault) => {
            out.extend_from_slice(fault.code.number())?;
            put_place(alloc, out, &fault.place)
        }
        Stop::Limit(code) => out.extend_from_slice(code.number()),
        Stop::NoMemory => out.extend_from_slice(b"no memory"),
    }
}

/// What the lexer gives of a file, by itself.
pub fn put_lexed(
    alloc: Global,
    out: &mut Vec<u8>,
    answer: &Result<TokenList<'_>, Stop>,
) -> Result<(), AllocError> {
    match answer {
        Ok(tokens) => put_tokens(alloc, out, tokens.as_slice()),
        Err(stop) => put_stop(alloc, out, stop),
    }
}

/// `ok`, the number of kept tokens and the tokens where they are few; a code, with the file and the line of a fault; or `need` and the name of a file.
pub fn put_answer(
    alloc: Global,
    out: &mut Vec<u8>,
    answer: &Result<Walk<'_>, Stop>,
) -> Result<(), AllocError> {
    match answer {
        Ok(Walk::Tokens(tokens)) => put_tokens(alloc, out, tokens.as_slice()),
        Ok(Walk::Need(name)) => {
            out.extend_from_slice(b"need ")?;
            out.extend_from_slice(name.as_slice())
        }
        Err(stop) => put_stop(alloc, out, stop),
    }
}
