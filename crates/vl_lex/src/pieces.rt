ghost use Rattle.std.specs.Prelude.{◌≡◌, ◌<◌, ◌≤◌, ◌+◌, ◌-◌, ◌^◌, ◌∷◌, length, IfSome, false};
ghost use Rattle.std.specs.List.{prefix_len};
ghost use Rattle.vl_lex.specs.Bytes.{is_decimal};
ghost use Rattle.vl_lex.specs.Pieces as spec;

use crate::bytes::{
    based_len, decimal_len, first, graphic_len, is_base, is_digit, is_graphic, is_letter, is_sign,
    is_space, line_len, name_len, rest_from,
};
use vl_tree::TokenKind;

/// What stands at the front of some bytes, with its length.
#[derive(Clone, Copy, Debug)]
pub enum Piece {
    /// White space that ends lines where it has newlines, or a comment.
    Space(usize),
    /// A backslash and the newline that it joins.
    Join(usize),
    Token(TokenKind, usize),
    /// A byte that begins nothing.
    Bad,
    /// A comment or a string that does not end.
    Unclosed,
}

/// The length of a joined newline, from the bytes behind its backslash.
#[tactic(auto, using(crate::proofs::Bounds::first_there, crate::proofs::Bounds::second_there))]
fn joined_len(bytes: &[u8]) -> usize
    ensures value { result ≡ spec.joined_len bytes.now }
    ensures within { result ≤ length bytes.now + 1 }
{
    if first(bytes) == b'\n' {
        2
    } else if first(bytes) == b'\r' && first(rest_from(bytes, 1)) == b'\n' {
        3
    } else {
        0
    }
}

fn blank_len(bytes: &[u8]) -> usize
    ensures value { result ≡ spec.blank_len bytes.now }
    ensures within { result ≤ length bytes.now }
{
    match bytes {
        [] => 0,
        [byte, rest @ ..] => {
            if is_space(*byte) {
                1
            } else if *byte == b'\\' {
                joined_len(rest)
            } else {
                0
            }
        }
    }
}

/// The length of all white space in front.
#[tactic(auto, using(crate::proofs::Bounds::blanks_on, crate::proofs::Bounds::blanks_over, crate::proofs::Bounds::length_drop))]
fn blanks_len(bytes: &[u8]) -> usize
    ensures value { result ≡ spec.blanks 0 bytes.now }
    ensures within { result ≤ length bytes.now }
{
    let mut at = 0;
    let mut len = blank_len(bytes);
    while len > 0 {
        at += len;
        len = blank_len(rest_from(bytes, at));
    }
    at
}

/// The digits behind a base, with the white space before them.
#[tactic(auto, using(crate::proofs::Bounds::prefix_bound, crate::proofs::Bounds::length_drop), unfolding(crate::specs::Pieces::digits_len))]
fn digits_len(bytes: &[u8]) -> usize
    ensures value { result ≡ spec.digits_len bytes.now }
    ensures within { result ≤ length bytes.now }
{
    let blanks = blanks_len(bytes);
    let digits = based_len(rest_from(bytes, blanks));
    if digits == 0 { 0 } else { blanks + digits }
}

/// `'`, a base and the digits.
#[tactic(auto, using(crate::proofs::Bounds::base_there, crate::proofs::Bounds::first_there, crate::proofs::Bounds::length_drop), unfolding(crate::specs::Pieces::base_len))]
fn base_len(bytes: &[u8]) -> usize
    ensures value { result ≡ spec.base_len bytes.now }
    ensures within { result ≤ length bytes.now }
{
    if first(bytes) != b'\'' {
        return 0;
    }
    if is_base(first(rest_from(bytes, 1))) {
        return 2 + digits_len(rest_from(bytes, 2));
    }
    if is_sign(first(rest_from(bytes, 1))) && is_base(first(rest_from(bytes, 2))) {
        return 3 + digits_len(rest_from(bytes, 3));
    }
    0
}

/// A number that begins with a digit.
#[tactic(auto, using(crate::proofs::Bounds::prefix_bound, crate::proofs::Bounds::length_drop), unfolding(crate::specs::Pieces::number_len))]
fn number_len(bytes: &[u8]) -> usize
    ensures value { result ≡ spec.number_len bytes.now }
    ensures within { result ≤ length bytes.now }
    ensures digits { prefix_len is_decimal bytes.now ≤ result }
{
    let digits = decimal_len(bytes);
    let before = digits + blanks_len(rest_from(bytes, digits));
    let base = base_len(rest_from(bytes, before));
    if base == 0 { digits } else { before + base }
}

#[tactic(auto, using(crate::proofs::Scans::comment_turn, crate::proofs::Scans::comment_over))]
/// The end of a comment, from the bytes behind its opening.
fn comment_end(bytes: &[u8]) -> Option<usize>
    ensures value { result ≡ spec.comment_end 0 false bytes.now }
    ensures within { IfSome result (λ n. n ≤ length bytes.now) }
{
    let mut star = false;
    for (at, byte) in bytes.iter().enumerate() {
        if star && *byte == b'/' {
            return Some(at + 1);
        }
        star = *byte == b'*';
    }
    None
}

#[tactic(auto, using(crate::proofs::Scans::quote_turn, crate::proofs::Scans::quote_over))]
/// The end of a string, from the bytes behind its opening.
fn quote_end(bytes: &[u8]) -> Option<usize>
    ensures value { result ≡ spec.quote_end 0 false bytes.now }
    ensures within { IfSome result (λ n. n ≤ length bytes.now) }
{
    let mut guarded = false;
    for (at, byte) in bytes.iter().enumerate() {
        if *byte == b'\n' {
            return None;
        }
        if !guarded && *byte == b'"' {
            return Some(at + 1);
        }
        guarded = !guarded && *byte == b'\\';
    }
    None
}

fn triple(byte: u8, second: u8, third: u8) -> bool
    ensures { result ≡ spec.is_triple byte second third }
{
    match byte {
        b'<' => second == b'<' && third == b'<',
        b'>' => second == b'>' && third == b'>',
        b'=' => second == b'=' && third == b'=',
        b'!' => second == b'=' && third == b'=',
        _ => false,
    }
}

fn pair(byte: u8, second: u8) -> bool
    ensures { result ≡ spec.is_pair byte second }
{
    match byte {
        b'<' => second == b'<' || second == b'=',
        b'>' => second == b'>' || second == b'=',
        b'=' => second == b'=',
        b'!' => second == b'=',
        b'&' => second == b'&',
        b'|' => second == b'|',
        b'*' => second == b'*',
        b'~' => second == b'&' || second == b'|' || second == b'^',
        b'^' => second == b'~',
        b'+' => second == b':',
        b'-' => second == b':',
        _ => false,
    }
}

/// An operator, or a byte that is a token by itself.
#[tactic(auto, using(crate::proofs::Reach::pair_there, crate::proofs::Reach::triple_there), unfolding(crate::specs::Pieces::operator_piece))]
fn operator_piece(byte: u8, rest: &[u8]) -> Piece
    ensures value { result ≡ spec.operator_piece byte rest.now }
    ensures within { spec.IsWithin result (length rest.now + 1) }
{
    let second = first(rest);
    if triple(byte, second, first(rest_from(rest, 1))) {
        Piece::Token(TokenKind::Operator, 3)
    } else if pair(byte, second) {
        Piece::Token(TokenKind::Operator, 2)
    } else if is_graphic(byte) {
        Piece::Token(TokenKind::Single, 1)
    } else {
        Piece::Bad
    }
}

fn closed_space(end: Option<usize>, most: usize) -> Piece
    requires small { most < 2 ^ 63 }
    requires within { IfSome end (λ n. n ≤ most) }
    ensures value { result ≡ spec.closed_space end }
    ensures within { spec.IsWithin result (most + 2) }
{
    match end {
        Some(len) => Piece::Space(2 + len),
        None => Piece::Unclosed,
    }
}

fn closed_quote(end: Option<usize>, most: usize) -> Piece
    requires small { most < 2 ^ 63 }
    requires within { IfSome end (λ n. n ≤ most) }
    ensures value { result ≡ spec.closed_quote end }
    ensures within { spec.IsWithin result (most + 1) }
{
    match end {
        Some(len) => Piece::Token(TokenKind::Quoted, 1 + len),
        None => Piece::Unclosed,
    }
}

/// What a `/` begins, from the bytes behind it.
#[tactic(auto, using(crate::proofs::Bounds::first_there, crate::proofs::Bounds::prefix_bound, crate::proofs::Bounds::length_drop), unfolding(crate::specs::Pieces::slash_piece))]
fn slash_piece(rest: &[u8]) -> Piece
    ensures value { result ≡ spec.slash_piece rest.now }
    ensures within { spec.IsWithin result (length rest.now + 1) }
{
    if first(rest) == b'/' {
        Piece::Space(1 + line_len(rest))
    } else if first(rest) == b'*' {
        let inside = rest_from(rest, 1);
        closed_space(comment_end(inside), inside.len())
    } else {
        Piece::Token(TokenKind::Single, 1)
    }
}

/// What a `"` begins, from the bytes behind it.
#[tactic(auto, unfolding(crate::specs::Pieces::quote_piece))]
fn quote_piece(rest: &[u8]) -> Piece
    ensures value { result ≡ spec.quote_piece rest.now }
    ensures within { spec.IsWithin result (length rest.now + 1) }
{
    closed_quote(quote_end(rest), rest.len())
}

/// What a backslash begins, from the bytes behind it.
#[tactic(auto, using(crate::proofs::Bounds::prefix_bound), unfolding(crate::specs::Pieces::backslash_piece))]
fn backslash_piece(rest: &[u8]) -> Piece
    ensures value { result ≡ spec.backslash_piece rest.now }
    ensures within { spec.IsWithin result (length rest.now + 1) }
{
    let joined = joined_len(rest);
    if joined != 0 {
        return Piece::Join(joined);
    }
    let len = graphic_len(rest);
    if len == 0 {
        Piece::Bad
    } else {
        Piece::Token(TokenKind::Escaped, 1 + len)
    }
}

/// What a `$` begins, from the bytes behind it.
#[tactic(auto, using(crate::proofs::Bounds::prefix_bound), unfolding(crate::specs::Pieces::dollar_piece))]
fn dollar_piece(rest: &[u8]) -> Piece
    ensures value { result ≡ spec.dollar_piece rest.now }
    ensures within { spec.IsWithin result (length rest.now + 1) }
{
    let len = name_len(rest);
    if len == 0 {
        Piece::Token(TokenKind::Single, 1)
    } else {
        Piece::Token(TokenKind::System, 1 + len)
    }
}

/// What a backquote begins, from the bytes behind it.
#[tactic(auto, using(crate::proofs::Bounds::prefix_bound), unfolding(crate::specs::Pieces::directive_piece))]
fn directive_piece(rest: &[u8]) -> Piece
    ensures value { result ≡ spec.directive_piece rest.now }
    ensures within { spec.IsWithin result (length rest.now + 1) }
{
    if is_letter(first(rest)) {
        Piece::Token(TokenKind::Directive, 1 + name_len(rest))
    } else {
        Piece::Bad
    }
}

/// What a `'` begins.
#[tactic(auto, unfolding(crate::specs::Pieces::tick_piece))]
fn tick_piece(bytes: &[u8]) -> Piece
    requires { 0 < length bytes.now }
    ensures value { result ≡ spec.tick_piece bytes.now }
    ensures within { spec.IsWithin result (length bytes.now) }
{
    let len = base_len(bytes);
    if len == 0 {
        Piece::Token(TokenKind::Single, 1)
    } else {
        Piece::Token(TokenKind::Number, len)
    }
}

/// What a byte begins that no other rule takes first.
#[tactic(auto, using(crate::proofs::Reach::starts), unfolding(crate::specs::Pieces::mark_piece))]
fn mark_piece(bytes: &[u8], byte: u8, rest: &[u8]) -> Piece
    requires { bytes.now ≡ byte ∷ rest.now }
    ensures value { result ≡ spec.mark_piece byte rest.now }
    ensures within { spec.IsWithin result (length bytes.now) }
{
    match byte {
        b'/' => slash_piece(rest),
        b'\\' => backslash_piece(rest),
        b'"' => quote_piece(rest),
        b'$' => dollar_piece(rest),
        b'`' => directive_piece(rest),
        b'\'' => tick_piece(bytes),
        _ => operator_piece(byte, rest),
    }
}

/// The piece at the front of some bytes: the longest token that fits, a comment, or white space. Linear in the piece, for a number in the white space behind it too.
#[tactic(auto, using(crate::proofs::Bounds::prefix_bound, crate::proofs::Bounds::counts_digit), unfolding(crate::specs::Pieces::piece))]
pub fn next_piece(bytes: &[u8]) -> Piece
    ensures value { result ≡ spec.piece bytes.now }
    ensures within { spec.IsWithin result (length bytes.now) }
{
    match bytes {
        [] => Piece::Bad,
        [byte, rest @ ..] => {
            if is_space(*byte) {
                Piece::Space(1)
            } else if is_letter(*byte) {
                Piece::Token(TokenKind::Name, 1 + name_len(rest))
            } else if is_digit(*byte) {
                Piece::Token(TokenKind::Number, number_len(bytes))
            } else {
                mark_piece(bytes, *byte, rest)
            }
        }
    }
}
