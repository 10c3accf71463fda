//! The operators of expressions.

/// An operator between two values, the loosest first (11.5 to 11.11).
#[derive(Clone, Copy, Debug, PartialEq, Eq)]
pub enum BinaryOperator {
    /// `||`
    Or,

    /// `&&`
    And,

    /// `|`
    BitOr,

    /// `^`
    BitXor,

    /// `&`
    BitAnd,

    /// `==`
    Equal,

    /// `!=`
    NotEqual,

    /// `===`
    StrictEqual,

    /// `!==`
    StrictNotEqual,

    /// `<`
    Less,

    /// `>`
    Greater,

    /// `<=`
    LessEqual,

    /// `>=`
    GreaterEqual,

    /// `instanceof`
    InstanceOf,

    /// `in`
    In,

    /// `<<`
    ShiftLeft,

    /// `>>`
    ShiftRight,

    /// `>>>`
    ShiftRightUnsigned,

    /// `+`
    Add,

    /// `-`
    Subtract,

    /// `*`
    Multiply,

    /// `/`
    Divide,

    /// `%`
    Remainder,
}

/// An operator before a value (11.4), but for the steps.
#[derive(Clone, Copy, Debug, PartialEq, Eq)]
pub enum UnaryOperator {
    /// `delete`
    Delete,

    /// `void`
    Void,

    /// `typeof`
    TypeOf,

    /// `+`
    Plus,

    /// `-`
    Minus,

    /// `~`
    BitNot,

    /// `!`
    Not,
}

/// An assignment operator (11.13).
#[derive(Clone, Copy, Debug, PartialEq, Eq)]
pub enum AssignOperator {
    /// `=`
    Plain,

    /// `+=`
    Add,

    /// `-=`
    Subtract,

    /// `*=`
    Multiply,

    /// `%=`
    Remainder,

    /// `/=`
    Divide,

    /// `<<=`
    ShiftLeft,

    /// `>>=`
    ShiftRight,

    /// `>>>=`
    ShiftRightUnsigned,

    /// `&=`
    BitAnd,

    /// `|=`
    BitOr,

    /// `^=`
    BitXor,
}

/// An operator that counts its operand up or down, before it (11.4.4, 11.4.5) or behind it (11.3).
#[derive(Clone, Copy, Debug, PartialEq, Eq)]
pub enum Step {
    /// `++`
    Increment,

    /// `--`
    Decrement,
}
