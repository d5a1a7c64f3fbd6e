ghost use Rattle.std.specs.Prelude.{◌≡◌, ◌≢◌, ◌+◌, ◌==◌, ◌||◌, true, false, map};
ghost use Rattle.std.specs.List.{list_any};
ghost use Rattle.std.specs.Str.{bytes_eq};
ghost use Rattle.vl_tree.specs.Words as spec;

use crate::reserved::words_with;
use crate::tokens::{Token, TokenKind};

/// What a token is to the grammar: one of the fixed words, or a name, a number, a system name.
///
/// The fixed words are the reserved words that the grammar uses, the operators and the single bytes (IEEE 1364-2005, annex B and section 5.1).
/// All words that this tool leaves out are one.
#[derive(Clone, Copy, Debug, PartialEq, Eq)]
pub enum Word {
    /// Behind the last token.
    EndOfTokens,
    Name,
    Number,
    /// A number with digits that match both bit values.
    FreeNumber,
    /// `$signed`, `$unsigned` or `$clog2`.
    System,
    /// A word, an operator, a system name or a number that is left out.
    LeftOut,
    /// A token that no rule of the grammar takes.
    Other,
    Always,
    And,
    Assign,
    Automatic,
    Begin,
    Buf,
    Case,
    CaseZ,
    Default,
    Else,
    End,
    EndCase,
    EndFunction,
    EndGenerate,
    EndModule,
    For,
    Function,
    Generate,
    GenVar,
    If,
    Initial,
    Input,
    Integer,
    LocalParam,
    Module,
    Nand,
    Negedge,
    Nor,
    Not,
    Or,
    Output,
    Parameter,
    Posedge,
    Reg,
    Signed,
    Wire,
    Xnor,
    Xor,
    LeftParen,
    RightParen,
    LeftBracket,
    RightBracket,
    LeftBrace,
    RightBrace,
    Comma,
    Colon,
    Semicolon,
    Dot,
    At,
    Hash,
    EqualSign,
    Question,
    Bang,
    Tilde,
    Star,
    Slash,
    Percent,
    Plus,
    Minus,
    Less,
    Greater,
    Ampersand,
    Caret,
    Bar,
    ShiftLeftSigned,
    ShiftRightSigned,
    ShiftLeft,
    ShiftRight,
    LessEqual,
    GreaterEqual,
    EqualEqual,
    NotEqual,
    AmpersandAmpersand,
    BarBar,
    StarStar,
    TildeAmpersand,
    TildeBar,
    TildeCaret,
    CaretTilde,
    PlusColon,
    MinusColon,
}

/// Whether two words are the same.
pub fn same_word(a: Word, b: Word) -> bool
    ensures value { result ≡ spec.same_word a b }
    ensures same { result ≡ true → a ≡ b }
    ensures other { result ≡ false → a ≢ b }
{
    a == b
}

/// The word of the first of some tokens.
pub fn next_word(tokens: &[Token<'_>]) -> Word
    ensures { result ≡ spec.next tokens.now }
{
    match tokens {
        [] => Word::EndOfTokens,
        [first, ..] => word_of(first),
    }
}

/// The word that a token is to the grammar. Linear in the token.
pub fn word_of(token: &Token<'_>) -> Word
    ensures { result ≡ spec.word_of token.now }
{
    word_of_text(token.kind, token.text)
}

/// The word of a token of a kind with a text. Linear in the text.
#[tactic(auto, unfolding(crate::specs::Words::word))]
pub fn word_of_text(kind: TokenKind, text: &[u8]) -> Word
    ensures { result ≡ spec.word kind text.now }
{
    match kind {
        TokenKind::Name => name_word(text),
        TokenKind::Escaped => Word::Name,
        TokenKind::Number => number_word(text),
        TokenKind::System => system_word(text),
        TokenKind::Operator => operator_word(text),
        TokenKind::Single => single_word(text),
        TokenKind::Directive | TokenKind::Quoted => Word::Other,
    }
}

fn is_text(text: &[u8], word: &[u8]) -> bool
    ensures { result ≡ bytes_eq text.now word.now }
{
    text == word
}

/// The word of a text in a table of fixed words, a name where the table lacks it. Linear in the table.
fn named(table: &[(&[u8], Word)], text: &[u8]) -> Word
    ensures { result ≡ spec.named (map (λ e. (e.0.now, e.1)) table.now) text.now }
{
    for entry in table {
        if is_text(text, entry.0) {
            return entry.1;
        }
    }
    Word::Name
}

/// The reserved or left-out word of a name, sought among those with its first byte.
#[tactic(auto, unfolding(crate::specs::Words::name_word))]
fn name_word(text: &[u8]) -> Word
    ensures { result ≡ spec.name_word text.now }
{
    match text {
        [] => Word::Name,
        [first, ..] => named(words_with(*first), text),
    }
}

fn is_unknown_digit(byte: u8) -> bool
    ensures { result ≡ spec.is_unknown_digit byte }
{
    byte == b'x' || byte == b'X'
}

fn is_free_digit(byte: u8) -> bool
    ensures { result ≡ spec.is_free_digit byte }
{
    byte == b'z' || byte == b'Z' || byte == b'?'
}

fn has_unknown_digit(text: &[u8]) -> bool
    ensures { result ≡ list_any spec.is_unknown_digit text.now }
{
    text.iter().any(|byte| is_unknown_digit(*byte))
}

fn has_free_digit(text: &[u8]) -> bool
    ensures { result ≡ list_any spec.is_free_digit text.now }
{
    text.iter().any(|byte| is_free_digit(*byte))
}

/// A number with an unknown digit is left out, one with a digit that matches both bits is free.
fn number_word(text: &[u8]) -> Word
    ensures { result ≡ spec.number_word text.now }
{
    if has_unknown_digit(text) {
        Word::LeftOut
    } else if has_free_digit(text) {
        Word::FreeNumber
    } else {
        Word::Number
    }
}

fn system_word(text: &[u8]) -> Word
    ensures { result ≡ spec.system_word text.now }
{
    if is_text(text, b"$signed") {
        Word::System
    } else if is_text(text, b"$unsigned") {
        Word::System
    } else if is_text(text, b"$clog2") {
        Word::System
    } else {
        Word::LeftOut
    }
}

fn operator_word(text: &[u8]) -> Word
    ensures { result ≡ spec.operator_word text.now }
{
    if is_text(text, b"<<<") {
        Word::ShiftLeftSigned
    } else if is_text(text, b">>>") {
        Word::ShiftRightSigned
    } else if is_text(text, b"===") {
        Word::LeftOut
    } else if is_text(text, b"!==") {
        Word::LeftOut
    } else if is_text(text, b"<<") {
        Word::ShiftLeft
    } else if is_text(text, b">>") {
        Word::ShiftRight
    } else if is_text(text, b"<=") {
        Word::LessEqual
    } else if is_text(text, b">=") {
        Word::GreaterEqual
    } else if is_text(text, b"==") {
        Word::EqualEqual
    } else if is_text(text, b"!=") {
        Word::NotEqual
    } else if is_text(text, b"&&") {
        Word::AmpersandAmpersand
    } else if is_text(text, b"||") {
        Word::BarBar
    } else if is_text(text, b"**") {
        Word::StarStar
    } else if is_text(text, b"~&") {
        Word::TildeAmpersand
    } else if is_text(text, b"~|") {
        Word::TildeBar
    } else if is_text(text, b"~^") {
        Word::TildeCaret
    } else if is_text(text, b"^~") {
        Word::CaretTilde
    } else if is_text(text, b"+:") {
        Word::PlusColon
    } else if is_text(text, b"-:") {
        Word::MinusColon
    } else {
        Word::Other
    }
}

fn byte_word(byte: u8) -> Word
    ensures { result ≡ spec.byte_word byte }
{
    match byte {
        b'(' => Word::LeftParen,
        b')' => Word::RightParen,
        b'[' => Word::LeftBracket,
        b']' => Word::RightBracket,
        b'{' => Word::LeftBrace,
        b'}' => Word::RightBrace,
        b',' => Word::Comma,
        b':' => Word::Colon,
        b';' => Word::Semicolon,
        b'.' => Word::Dot,
        b'@' => Word::At,
        b'#' => Word::Hash,
        b'=' => Word::EqualSign,
        b'?' => Word::Question,
        b'!' => Word::Bang,
        b'~' => Word::Tilde,
        b'*' => Word::Star,
        b'/' => Word::Slash,
        b'%' => Word::Percent,
        b'+' => Word::Plus,
        b'-' => Word::Minus,
        b'<' => Word::Less,
        b'>' => Word::Greater,
        b'&' => Word::Ampersand,
        b'^' => Word::Caret,
        b'|' => Word::Bar,
        _ => Word::Other,
    }
}

fn single_word(text: &[u8]) -> Word
    ensures { result ≡ spec.single_word text.now }
{
    match text {
        [byte] => byte_word(*byte),
        _ => Word::Other,
    }
}
