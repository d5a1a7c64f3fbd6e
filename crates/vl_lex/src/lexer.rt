ghost use Rattle.std.specs.Prelude.{◌≡◌, ◌<◌, ◌≤◌, ◌+◌, ◌-◌, ◌^◌, ◌==◌, length, take, map, count_by, IfOk};
ghost use Rattle.vl_lex.specs.Places.{AreSlices, InOrder};
ghost use Rattle.vl_lex.specs.Lexed as spec;
ghost use Rattle.vl_tree.specs.declared.faults.Place.TheVariants as place;
ghost use Rattle.vl_tree.specs.declared.faults.Stop.TheVariants as stop;

use crate::bytes::{front, rest_from};
use crate::pieces::{Piece, next_piece};
use bits_core::Items;
use std::alloc::Global;
use vl_tree::{Code, Fault, Place, Span, Stop, Token, TokenKind, TokenList};

/// A token and the row that it begins on: how many line ends that no backslash joins stand before it.
#[derive(Clone, Copy, Debug)]
pub struct Lined<'f> {
    pub token: Token<'f>,
    pub row: u32,
}

/// A place in a file, with its line from 1 and its row from 0.
#[derive(Clone, Copy, Debug)]
pub struct Cursor {
    pub at: usize,
    pub line: u32,
    pub row: u32,
}

/// How many newlines a text has. Linear.
#[tactic(auto, using(crate::proofs::Counts::counted))]
pub fn newlines(text: &[u8]) -> usize
    ensures value { result ≡ spec.newlines text.now }
    ensures within { result ≤ length text.now }
{
    text.iter().filter(|byte| **byte == b'\n').count()
}

#[tactic(auto, using(crate::proofs::Counts::counted))]
fn backslashes(text: &[u8]) -> usize
    ensures value { result ≡ count_by (λ b. b == 92) text.now }
    ensures within { result ≤ length text.now }
{
    text.iter().filter(|byte| **byte == b'\\').count()
}

impl Cursor {
    /// Behind white space or a comment.
    fn past_space(self, text: &[u8]) -> Cursor
        requires { (self.at + length text.now < 2 ^ 25) × (self.line ≤ self.at + 1) × (self.row ≤ self.at) }
        ensures value { result ≡ spec.past_space self text.now }
        ensures small { (result.line ≤ result.at + 1) × (result.row ≤ result.at) }
    {
        let ends = newlines(text) as u32;
        Cursor {
            at: self.at + text.len(),
            line: self.line + ends,
            row: self.row + ends,
        }
    }

    /// Behind a joined newline.
    fn past_join(self, text: &[u8]) -> Cursor
        requires { (self.at + length text.now < 2 ^ 25) × (self.line ≤ self.at + 1) × (self.row ≤ self.at) }
        ensures value { result ≡ spec.past_join self text.now }
        ensures small { (result.line ≤ result.at + 1) × (result.row ≤ result.at) }
    {
        Cursor {
            at: self.at + text.len(),
            line: self.line + newlines(text) as u32,
            row: self.row,
        }
    }

    /// Behind a token.
    fn past_token(self, text: &[u8]) -> Cursor
        requires { (self.at + length text.now < 2 ^ 25) × (self.line ≤ self.at + 1) × (self.row ≤ self.at) }
        ensures value { result ≡ spec.past_token self text.now }
        ensures small { (result.line ≤ result.at + 1) × (result.row ≤ result.at) }
    {
        let lines = newlines(text);
        Cursor {
            at: self.at + text.len(),
            line: self.line + lines as u32,
            row: self.row + lines.saturating_sub(backslashes(text)) as u32,
        }
    }
}

fn token_here<'f>(file: u32, here: Cursor, kind: TokenKind, text: &'f [u8]) -> Lined<'f>
    requires { here.at + length text.now < 2 ^ 25 }
    ensures { spec.placed result ≡ spec.token_here file here kind text.now }
{
    let span = Span {
        file,
        start: here.at as u32,
        end: (here.at + text.len()) as u32,
        line: here.line,
    };
    Lined {
        token: Token {
            kind,
            text,
            span,
            implicit: true,
        },
        row: here.row,
    }
}

fn fault_here(code: Code, file: u32, here: Cursor) -> Stop
    ensures { result ≡ stop.Fault (record { code = code; place = place.Line file here.line }) }
{
    Stop::Fault(Fault {
        code,
        place: Place::Line {
            file,
            line: here.line,
        },
    })
}

/// The tokens of a file, each with its row. Linear in the bytes.
#[tactic(auto, using(crate::proofs::Turns::turns))]
pub fn lex_rows<'f>(alloc: Global, file: u32, bytes: &'f [u8]) -> Result<Items<Lined<'f>>, Stop>
    requires { length bytes.now ≤ 2 ^ 24 }
    ensures { spec.LexesRows result (spec.file_tokens file bytes.now) }
{
    let mut found = Items::new(alloc);
    let mut here = Cursor {
        at: 0,
        line: 1,
        row: 0,
    };
    while here.at < bytes.len() {
        let rest = rest_from(bytes, here.at);
        match next_piece(rest) {
            Piece::Space(len) => here = here.past_space(front(rest, len)),
            Piece::Join(len) => here = here.past_join(front(rest, len)),
            Piece::Token(kind, len) => {
                let text = front(rest, len);
                found.push(token_here(file, here, kind, text))?;
                here = here.past_token(text);
            }
            Piece::Bad => return Err(fault_here(Code::BadByte, file, here)),
            Piece::Unclosed => return Err(fault_here(Code::Unclosed, file, here)),
        }
    }
    Ok(found)
}

/// The tokens of a file, each the longest that fits; white space and comments are dropped. A byte that begins nothing is `BadByte` at its line,
/// a comment or a string that does not end is `Unclosed` at the line where it begins; the first of these counts. Linear in the bytes.
pub fn lex<'f>(alloc: Global, file: u32, bytes: &'f [u8]) -> Result<TokenList<'f>, Stop>
    requires { length bytes.now ≤ 2 ^ 24 }
    ensures tokens { spec.Lexes result (spec.file_tokens file bytes.now) }
    ensures slices { IfOk result (λ tokens. AreSlices file bytes.now (map spec.view tokens)) }
    ensures order { IfOk result (λ tokens. InOrder 0 (map spec.view tokens)) }
{
    match lex_rows(alloc, file, bytes) {
        Ok(lined) => bare_tokens(alloc, &lined),
        Err(stop) => Err(stop),
    }
}

fn bare_tokens<'f>(alloc: Global, lined: &Items<Lined<'f>>) -> Result<TokenList<'f>, Stop>
    ensures { spec.IsBare result (map (λ t. t.token) lined.now) }
{
    let mut tokens = Items::new(alloc);
    for item in lined.as_slice() {
        tokens.push(item.token)?;
    }
    Ok(tokens)
}
