use crate::numbers::{decimal, hexadecimal, place, value};
use design_core::{Binary, Unary};

/// What an assignment writes to: a signal, a part of it, a part at a place that an index gives, which counts up or down, or two signals.
#[derive(Clone, Copy)]
pub enum Left {
    Whole(u32),
    Part {
        number: u32,
        low: i64,
        length: u32,
    },
    At {
        number: u32,
        offset: i64,
        down: bool,
        length: u32,
    },
    Pair {
        high: u32,
        low: u32,
    },
}

/// A word of a case.
#[derive(Clone, Copy)]
pub enum Word {
    Signal {
        number: u32,
        signed: bool,
    },
    Constant {
        length: u32,
        value: u128,
        signed: bool,
    },
    Unary(Unary),
    Binary(Binary),
    Mux,
    Extend {
        length: u32,
        by_sign: bool,
    },
    Select {
        low: i64,
        length: u32,
    },
    SelectAt {
        offset: i64,
        down: bool,
        length: u32,
    },
    Sign(bool),
    Concat(u32),
    Repeat(u32),
    Left(Left),
    LeftPair,
    Assign {
        blocking: bool,
    },
    Write {
        left: Left,
        blocking: bool,
    },
    Block(u32),
    Turns(u32),
    If,
    Item,
    FreeItem(u128),
    Arm,
    Case,
    CaseElse,
    Call,
}

fn unary(word: &str) -> Option<Unary> {
    match word {
        "-a" => Some(Unary::Negate),
        "~a" => Some(Unary::Invert),
        "!a" => Some(Unary::Not),
        "&a" => Some(Unary::And),
        "~&a" => Some(Unary::Nand),
        "|a" => Some(Unary::Or),
        "~|a" => Some(Unary::Nor),
        "^a" => Some(Unary::Xor),
        "~^a" => Some(Unary::Xnor),
        _ => None,
    }
}

fn arithmetic(word: &str) -> Option<Binary> {
    match word {
        "+" => Some(Binary::Add),
        "-" => Some(Binary::Sub),
        "*" => Some(Binary::Mul),
        "&" => Some(Binary::And),
        "|" => Some(Binary::Or),
        "^" => Some(Binary::Xor),
        "~^" => Some(Binary::Xnor),
        "<<" => Some(Binary::ShiftLeft),
        ">>" => Some(Binary::ShiftRight),
        ">>>" => Some(Binary::ShiftRightSigned),
        _ => None,
    }
}

fn relation(word: &str) -> Option<Binary> {
    match word {
        "<" => Some(Binary::Less),
        "<=" => Some(Binary::LessEqual),
        ">" => Some(Binary::Greater),
        ">=" => Some(Binary::GreaterEqual),
        "==" => Some(Binary::Equal),
        "!=" => Some(Binary::NotEqual),
        "&&" => Some(Binary::LogicAnd),
        "||" => Some(Binary::LogicOr),
        _ => None,
    }
}

fn operator(word: &str) -> Option<Word> {
    if let Some(op) = unary(word) {
        return Some(Word::Unary(op));
    }
    if let Some(op) = arithmetic(word) {
        return Some(Word::Binary(op));
    }
    Some(Word::Binary(relation(word)?))
}

fn plain(word: &str) -> Option<Word> {
    match word {
        "?" => Some(Word::Mux),
        "skip" => Some(Word::Block(0)),
        "if" => Some(Word::If),
        "item" => Some(Word::Item),
        "arm" => Some(Word::Arm),
        "case" => Some(Word::Case),
        "case.d" => Some(Word::CaseElse),
        "call" => Some(Word::Call),
        "signed" => Some(Word::Sign(true)),
        "unsigned" => Some(Word::Sign(false)),
        "lpair" => Some(Word::LeftPair),
        "b=" => Some(Word::Assign { blocking: true }),
        "n=" => Some(Word::Assign { blocking: false }),
        _ => None,
    }
}

// `PLACE:LEN`.
fn span(text: &str) -> Option<(i64, u32)> {
    let (low, length) = text.split_once(':')?;
    Some((place(low)?, decimal(length)?))
}

fn select_at(text: &str, down: bool) -> Option<Word> {
    let (offset, length) = span(text)?;
    Some(Word::SelectAt {
        offset,
        down,
        length,
    })
}

fn constant(text: &str, signed: bool) -> Option<Word> {
    let (length, value) = value(text)?;
    Some(Word::Constant {
        length,
        value,
        signed,
    })
}

// `N.PLACE.LEN`.
fn part(text: &str) -> Option<(u32, i64, u32)> {
    let (number, rest) = text.split_once('.')?;
    let (low, length) = rest.split_once('.')?;
    Some((decimal(number)?, place(low)?, decimal(length)?))
}

fn target_at(text: &str, down: bool) -> Option<Left> {
    let (number, offset, length) = part(text)?;
    Some(Left::At {
        number,
        offset,
        down,
        length,
    })
}

fn target(text: &str) -> Option<Left> {
    if let Some(at) = text.strip_prefix("@") {
        return target_at(at, false);
    }
    if let Some(at) = text.strip_prefix("-") {
        return target_at(at, true);
    }
    let Some(whole) = text.strip_prefix(".") else {
        let (high, low) = text.split_once('+')?;
        return Some(Left::Pair {
            high: decimal(high)?,
            low: decimal(low)?,
        });
    };
    if let Some((number, low, length)) = part(whole) {
        return Some(Left::Part {
            number,
            low,
            length,
        });
    }
    Some(Left::Whole(decimal(whole)?))
}

// A long name with a number behind it.
fn named(word: &str) -> Option<Word> {
    if let Some(text) = word.strip_prefix("block") {
        return Some(Word::Block(decimal(text)?));
    }
    if let Some(text) = word.strip_prefix("turns") {
        return Some(Word::Turns(decimal(text)?));
    }
    if let Some(text) = word.strip_prefix("item") {
        return Some(Word::FreeItem(hexadecimal(text)?));
    }
    if let Some(text) = word.strip_prefix("sel") {
        let (low, length) = span(text)?;
        return Some(Word::Select { low, length });
    }
    if let Some(text) = word.strip_prefix("at+") {
        return select_at(text, false);
    }
    select_at(word.strip_prefix("at-")?, true)
}

fn leaf(word: &str) -> Option<Word> {
    if let Some(text) = word.strip_prefix("s") {
        return Some(Word::Signal {
            number: decimal(text)?,
            signed: false,
        });
    }
    if let Some(text) = word.strip_prefix("t") {
        return Some(Word::Signal {
            number: decimal(text)?,
            signed: true,
        });
    }
    if let Some(text) = word.strip_prefix("u") {
        return constant(text, false);
    }
    constant(word.strip_prefix("i")?, true)
}

fn longer(word: &str) -> Option<Word> {
    if let Some(text) = word.strip_prefix("x") {
        return Some(Word::Extend {
            length: decimal(text)?,
            by_sign: false,
        });
    }
    if let Some(text) = word.strip_prefix("X") {
        return Some(Word::Extend {
            length: decimal(text)?,
            by_sign: true,
        });
    }
    if let Some(text) = word.strip_prefix("{") {
        return Some(Word::Concat(decimal(text)?));
    }
    Some(Word::Repeat(decimal(word.strip_prefix("r")?)?))
}

fn write(word: &str) -> Option<Word> {
    if let Some(text) = word.strip_prefix("l") {
        return Some(Word::Left(target(text)?));
    }
    if let Some(text) = word.strip_prefix("b") {
        return Some(Word::Write {
            left: target(text)?,
            blocking: true,
        });
    }
    Some(Word::Write {
        left: target(word.strip_prefix("n")?)?,
        blocking: false,
    })
}

/// The meaning of a word.
pub fn read(word: &str) -> Option<Word> {
    operator(word)
        .or(plain(word))
        .or(named(word))
        .or(leaf(word))
        .or(longer(word))
        .or(write(word))
}
