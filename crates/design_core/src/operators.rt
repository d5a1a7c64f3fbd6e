/// The operators of one operand: arithmetic and bitwise negation, logical negation, and the six reductions (IEEE 1364-2005, 5.1.2).
#[derive(Clone, Copy, Debug, PartialEq, Eq)]
pub enum Unary {
    Negate,
    Invert,
    Not,
    And,
    Nand,
    Or,
    Nor,
    Xor,
    Xnor,
}

/// The operators of two operands (IEEE 1364-2005, 5.1.2).
#[derive(Clone, Copy, Debug, PartialEq, Eq)]
pub enum Binary {
    Add,
    Sub,
    Mul,
    And,
    Or,
    Xor,
    Xnor,
    Less,
    LessEqual,
    Greater,
    GreaterEqual,
    Equal,
    NotEqual,
    LogicAnd,
    LogicOr,
    ShiftLeft,
    ShiftRight,
    ShiftRightSigned,
}
