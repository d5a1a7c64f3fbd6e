use bits_core::{Items, NoMemory};
use std::alloc::Global;
use vl_tree::{Span, Token, TokenKind, TokenList};

fn kind_of(text: &[u8]) -> TokenKind {
    match text {
        [b'$', ..] => TokenKind::System,
        [b'0'..=b'9', ..] => TokenKind::Number,
        [b'a'..=b'z', ..] => TokenKind::Name,
        [_] => TokenKind::Single,
        _ => TokenKind::Operator,
    }
}

// A token of file 7, at this line.
fn token_at<'f>(text: &'f [u8], line: u32) -> Token<'f> {
    Token {
        kind: kind_of(text),
        text,
        span: Span {
            file: 7,
            start: 0,
            end: 0,
            line,
        },
        implicit: true,
    }
}

/// The words of a text as tokens, one a line.
pub fn tokens_of<'f>(alloc: Global, text: &'f str) -> Result<TokenList<'f>, NoMemory> {
    let mut tokens = Items::new(alloc);
    let mut line = 1u32;
    for word in text.split_ascii_whitespace() {
        tokens.push(token_at(word.as_bytes(), line))?;
        line = line.saturating_add(1);
    }
    Ok(tokens)
}
