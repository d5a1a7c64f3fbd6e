ghost use Rattle.std.specs.Prelude.{◌≡◌, ◌≤◌};
ghost use Rattle.vl_grammar.specs.Roles as spec;

use vl_tree::Word;

/// What a word is to the rules of an expression that look at the next token.
#[derive(Clone, Copy, Debug, PartialEq, Eq)]
pub enum Role {
    Number,
    Name,
    System,
    LeftParen,
    LeftBracket,
    RightBracket,
    LeftBrace,
    Colon,
    PlusColon,
    MinusColon,
    Question,
    /// Any other word.
    Other,
}

/// The role of a word. A number with free bits is a number.
#[tactic(auto, unfolding(crate::specs::Roles::role_of))]
pub fn role_of(word: Word) -> Role
    ensures { result ≡ spec.role_of word }
{
    match word {
        Word::Number | Word::FreeNumber => Role::Number,
        Word::Name => Role::Name,
        Word::System => Role::System,
        Word::LeftParen => Role::LeftParen,
        Word::LeftBracket => Role::LeftBracket,
        Word::RightBracket => Role::RightBracket,
        Word::LeftBrace => Role::LeftBrace,
        Word::Colon => Role::Colon,
        Word::PlusColon => Role::PlusColon,
        Word::MinusColon => Role::MinusColon,
        Word::Question => Role::Question,
        _ => Role::Other,
    }
}

/// How tightly a word binds between two operands, from 1 to 11, and 0 for a word that is no such operator (IEEE 1364-2005, 5.1.2).
#[tactic(auto, unfolding(crate::specs::Roles::binds))]
pub fn binds(word: Word) -> u8
    ensures value { result ≡ spec.binds word }
    ensures small { result ≤ 11 }
{
    match word {
        Word::BarBar => 1,
        Word::AmpersandAmpersand => 2,
        Word::Bar => 3,
        Word::Caret | Word::CaretTilde | Word::TildeCaret => 4,
        Word::Ampersand => 5,
        Word::EqualEqual | Word::NotEqual => 6,
        Word::Less | Word::LessEqual | Word::Greater | Word::GreaterEqual => 7,
        Word::ShiftLeft | Word::ShiftRight | Word::ShiftLeftSigned | Word::ShiftRightSigned => 8,
        Word::Plus | Word::Minus => 9,
        Word::Star | Word::Slash | Word::Percent => 10,
        Word::StarStar => 11,
        _ => 0,
    }
}

/// Whether a word is an operator before one operand (IEEE 1364-2005, A.8.6).
#[tactic(auto, unfolding(crate::specs::Roles::is_unary))]
pub fn is_unary(word: Word) -> bool
    ensures { result ≡ spec.is_unary word }
{
    match word {
        Word::Plus | Word::Minus | Word::Bang | Word::Tilde => true,
        Word::Ampersand | Word::TildeAmpersand | Word::Bar | Word::TildeBar => true,
        Word::Caret | Word::TildeCaret | Word::CaretTilde => true,
        _ => false,
    }
}
