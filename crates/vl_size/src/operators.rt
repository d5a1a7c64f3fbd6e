ghost use Rattle.std.specs.Prelude.{◌≡◌};
ghost use Rattle.vl_size.specs.Operators as spec;
ghost use Rattle.vl_tree.specs.Words as words;

use vl_tree::{Token, Word, word_of};

/// The operators before one operand (IEEE 1364-2005, 5.1); `And` to `Xnor` are reductions.
#[derive(Clone, Copy, Debug, PartialEq, Eq)]
pub enum UnaryOperator {
    Plus,
    Minus,
    Invert,
    Not,
    And,
    Nand,
    Or,
    Nor,
    Xor,
    Xnor,
}

/// The operators between two operands (IEEE 1364-2005, 5.1).
#[derive(Clone, Copy, Debug, PartialEq, Eq)]
pub enum BinaryOperator {
    Add,
    Subtract,
    Multiply,
    Divide,
    Remainder,
    Power,
    And,
    Or,
    Xor,
    Xnor,
    Less,
    LessEqual,
    Greater,
    GreaterEqual,
    Equal,
    NotEqual,
    LogicAnd,
    LogicOr,
    ShiftLeft,
    ShiftRight,
    ShiftLeftSigned,
    ShiftRightSigned,
}

/// The system functions of expressions (IEEE 1364-2005, 17.7 and 17.11.1).
#[derive(Clone, Copy, Debug, PartialEq, Eq)]
pub enum SystemFunction {
    Signed,
    Unsigned,
    CeilingLog,
}

/// The operator that a token is before an operand; `+` for a token that is none.
pub fn unary_operator(token: &Token) -> UnaryOperator
    ensures { result ≡ spec.unary_operator (words.word_of token.now) }
{
    match word_of(token) {
        Word::Minus => UnaryOperator::Minus,
        Word::Tilde => UnaryOperator::Invert,
        Word::Bang => UnaryOperator::Not,
        Word::Ampersand => UnaryOperator::And,
        Word::TildeAmpersand => UnaryOperator::Nand,
        Word::Bar => UnaryOperator::Or,
        Word::TildeBar => UnaryOperator::Nor,
        Word::Caret => UnaryOperator::Xor,
        Word::TildeCaret | Word::CaretTilde => UnaryOperator::Xnor,
        _ => UnaryOperator::Plus,
    }
}

/// The operator that a token is between two operands; `+` for a token that is none.
pub fn binary_operator(token: &Token) -> BinaryOperator
    ensures { result ≡ spec.binary_operator (words.word_of token.now) }
{
    match word_of(token) {
        Word::Minus => BinaryOperator::Subtract,
        Word::Star => BinaryOperator::Multiply,
        Word::Slash => BinaryOperator::Divide,
        Word::Percent => BinaryOperator::Remainder,
        Word::StarStar => BinaryOperator::Power,
        Word::Ampersand => BinaryOperator::And,
        Word::Bar => BinaryOperator::Or,
        Word::Caret => BinaryOperator::Xor,
        Word::CaretTilde | Word::TildeCaret => BinaryOperator::Xnor,
        Word::Less => BinaryOperator::Less,
        Word::LessEqual => BinaryOperator::LessEqual,
        Word::Greater => BinaryOperator::Greater,
        Word::GreaterEqual => BinaryOperator::GreaterEqual,
        Word::EqualEqual => BinaryOperator::Equal,
        Word::NotEqual => BinaryOperator::NotEqual,
        Word::AmpersandAmpersand => BinaryOperator::LogicAnd,
        Word::BarBar => BinaryOperator::LogicOr,
        Word::ShiftLeft => BinaryOperator::ShiftLeft,
        Word::ShiftRight => BinaryOperator::ShiftRight,
        Word::ShiftLeftSigned => BinaryOperator::ShiftLeftSigned,
        Word::ShiftRightSigned => BinaryOperator::ShiftRightSigned,
        _ => BinaryOperator::Add,
    }
}

/// The system function that a token names; `$clog2` for a token that names neither of the others.
pub fn system_function(token: &Token) -> SystemFunction
    ensures { result ≡ spec.system_function token.now.text.now }
{
    if token.text == b"$signed".as_slice() {
        SystemFunction::Signed
    } else if token.text == b"$unsigned".as_slice() {
        SystemFunction::Unsigned
    } else {
        SystemFunction::CeilingLog
    }
}
