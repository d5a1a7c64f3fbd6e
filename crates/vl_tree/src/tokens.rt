ghost use Rattle.std.specs.Prelude.{◌≡◌};
ghost use Rattle.vl_tree.specs.Names.{name_of};

use bits_core::Items;

/// Where a token stands: its file in the list of files, its bytes from `start` to before `end`, and the line of its first byte, counted from 1.
#[derive(Clone, Copy, Debug, PartialEq, Eq)]
pub struct Span {
    pub file: u32,
    pub start: u32,
    pub end: u32,
    pub line: u32,
}

/// The kinds of tokens (IEEE 1364-2005, section 3); a `Quoted` is a string, and a `Single` is any byte that is no part of a longer token.
#[derive(Clone, Copy, Debug, PartialEq, Eq)]
pub enum TokenKind {
    Name,
    Escaped,
    System,
    Directive,
    Number,
    Quoted,
    Operator,
    Single,
}

/// A token: a slice of its file. `implicit` says whether undeclared names at this token may be nets of one bit.
#[derive(Clone, Copy, Debug)]
pub struct Token<'f> {
    pub kind: TokenKind,
    pub text: &'f [u8],
    pub span: Span,
    pub implicit: bool,
}

/// A list of tokens.
pub type TokenList<'f> = Items<Token<'f>>;

/// The name that a token gives: its bytes, without the `\` of an escaped name.
pub fn token_name<'f>(token: &Token<'f>) -> &'f [u8]
    ensures { result.now ≡ name_of token.now.kind token.now.text.now }
{
    match (token.kind, token.text) {
        (TokenKind::Escaped, [_, name @ ..]) => name,
        _ => token.text,
    }
}
