//! The terminals of the grammar.

use mdg_tree::{AssignOperator, BinaryOperator, Step, UnaryOperator};

/// A terminal of the grammar: the kind of a token, or which keyword or punctuator it is.
#[derive(Clone, Copy, Debug, PartialEq, Eq)]
pub enum Terminal {
    /// No token: the end of the file.
    End,
    Name,
    Numeral,
    Text,

    /// A reserved word that stands in the grammar only as a name of a property.
    ReservedWord,

    /// `(`
    OpenParen,

    /// `)`
    CloseParen,

    /// `[`
    OpenBracket,

    /// `]`
    CloseBracket,

    /// `{`
    OpenBrace,

    /// `}`
    CloseBrace,
    Dot,
    Semicolon,
    Comma,
    Question,
    Colon,

    /// An operator between two operands, also a `+` or `-` before one.
    Binary(BinaryOperator),

    /// An operator that only stands before an operand.
    Unary(UnaryOperator),
    Assign(AssignOperator),
    Update(Step),
    Break,
    Continue,
    Do,
    Else,
    False,
    For,
    Function,
    If,
    New,
    Null,
    Return,
    Throw,
    True,
    Var,
    While,

    /// No token of the language.
    Other,
}
