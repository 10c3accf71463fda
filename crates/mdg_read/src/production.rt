//! The productions of expressions that the grammar tells apart.

/// The productions of an expression (11). Where the flag is set, `in` is no operator.
#[derive(Clone, Copy, Debug, PartialEq, Eq)]
pub enum Production {
    /// Expressions with commas between (11.14).
    Expression(bool),

    /// One expression without a comma (11.13).
    Assignment(bool),

    /// A conditional expression (11.12).
    Conditional(bool),

    /// Binary operators of this precedence and of tighter ones, from 0, the loosest (11.5 to 11.11).
    Binary(bool, u8),

    /// A unary operator before an operand (11.4).
    Unary,

    /// An update operator after its operand (11.3).
    Postfix,

    /// A left-hand-side expression (11.2).
    LeftHandSide,

    /// A call, and members of what it gives (11.2).
    Call,

    /// `new` without arguments, and what is looser than a call (11.2).
    New,

    /// Members, and `new` with arguments (11.2).
    Member,

    /// A name, a literal, an initialiser, or an expression in parentheses (11.1).
    Primary,
}
