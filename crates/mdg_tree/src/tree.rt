//! The types of trees.
//!
//! Lists of parts that lead back to a tree are the kit's `Items`, which such a type can hold.

use crate::operator::{AssignOperator, BinaryOperator, Step, UnaryOperator};
use mdg_base::Text;
use sqlite_items::{Boxed, Items};

/// Where the first token of a form stands.
#[derive(Clone, Copy, Debug, PartialEq, Eq)]
pub struct At {
    /// Counted from 1.
    pub line: u32,

    /// In bytes from 0.
    pub offset: u32,
}

/// A program (14). Its directive `use strict` is no item.
#[derive(Drop)]
pub struct FileTree {
    /// Where the file's first token stands, which is the directive.
    pub at: At,
    pub items: mdg_base::Items<Stmt>,
}

/// An expression (11). Each form holds the place of its first token.
#[cycle(ast)]
#[derive(Drop)]
pub enum Expr {
    /// `a, b, c`: two or more expressions in order (11.14).
    Comma(At, Items<Expr>),

    /// `target = value`, and the compound assignments (11.13).
    Assign(At, AssignOperator, Boxed<Expr>, Boxed<Expr>),

    /// `test ? chosen : other` (11.12).
    Conditional(At, Boxed<Expr>, Boxed<Expr>, Boxed<Expr>),

    /// `left + right` (11.5 to 11.11).
    Binary(At, BinaryOperator, Boxed<Expr>, Boxed<Expr>),

    /// `typeof value` (11.4).
    Unary(At, UnaryOperator, Boxed<Expr>),

    /// `++target` (11.4.4, 11.4.5).
    Prefix(At, Step, Boxed<Expr>),

    /// `target++` (11.3).
    Postfix(At, Step, Boxed<Expr>),

    /// `new callee`, with no arguments at all (11.2.2).
    New(At, Boxed<Expr>),

    /// `new callee(arguments)` (11.2.2).
    NewWithArguments(At, Boxed<Expr>, Items<Expr>),

    /// `callee(arguments)` (11.2.3).
    Call(At, Boxed<Expr>, Items<Expr>),

    /// `object[key]` (11.2.1).
    Index(At, Boxed<Expr>, Boxed<Expr>),

    /// `object.name` (11.2.1).
    Member(At, Boxed<Expr>, Text),

    /// A function expression (13). Its place is in the function.
    FunctionExpression(Function),

    /// A name (11.1.2).
    Name(At, Text),

    /// `null` (7.8.1).
    Null(At),

    /// `true` (7.8.2).
    True(At),

    /// `false` (7.8.2).
    False(At),

    /// A numeral as it is spelled (7.8.3).
    Numeral(At, Text),

    /// The value of a string literal (7.8.4).
    Text(At, Text),

    /// `(inner)` (11.1.6).
    Paren(At, Boxed<Expr>),

    /// `[first, second]` (11.1.4).
    Array(At, Items<Expr>),

    /// `{ key: value }` (11.1.5).
    Object(At, Items<Property>),
}

/// `key: value` in an object initialiser (11.1.5).
#[cycle(ast)]
#[derive(Drop)]
pub struct Property {
    /// Where the key stands.
    pub at: At,
    pub key: Key,
    pub value: Expr,
}

/// The key of a property (11.1.5).
#[derive(Drop)]
pub enum Key {
    /// A name, or a word of the language.
    Name(Text),

    /// The value of a string literal.
    Text(Text),

    /// A plain numeral as it is spelled.
    Numeral(Text),
}

/// A function, declared or as an expression (13).
#[cycle(ast)]
#[derive(Drop)]
pub struct Function {
    pub name: Option<Text>,

    /// The offset of the name, and of the word `function` where there is no name.
    pub name_offset: u32,
    pub parameters: mdg_base::Items<Text>,

    /// The offsets of the parameters, in the same order.
    pub parameter_offsets: mdg_base::Items<u32>,
    pub body: Items<Stmt>,

    /// The line of the word `function`, from 1.
    pub line: u32,

    /// The offset of the word `function`.
    pub offset: u32,
}

/// A statement or a declared function (12, 13). Each form holds the place of its first token.
#[cycle(ast)]
#[derive(Drop)]
pub enum Stmt {
    /// `{ body }` (12.1).
    Block(At, Items<Stmt>),

    /// `var first, second = value;` (12.2).
    Var(At, Items<Declaration>),

    /// `;` (12.3).
    Empty(At),

    /// An expression statement (12.4).
    Expression(At, Expr),

    /// `if (test) then`, with no `else` (12.5).
    If(At, Expr, Boxed<Stmt>),

    /// `if (test) then else otherwise` (12.5).
    IfElse(At, Expr, Boxed<Stmt>, Boxed<Stmt>),

    /// `do body while (test)` (12.6.1).
    DoWhile(At, Boxed<Stmt>, Expr),

    /// `while (test) body` (12.6.2).
    While(At, Expr, Boxed<Stmt>),

    /// `for (init; test; update) body` (12.6.3).
    For(At, Init, Option<Expr>, Option<Expr>, Boxed<Stmt>),

    /// `for (goal in object) body` (12.6.4).
    ForIn(At, Goal, Expr, Boxed<Stmt>),

    /// `continue` with no label (12.7).
    Continue(At),

    /// `break` with no label (12.8).
    Break(At),

    /// `return` with no value (12.9).
    Return(At),

    /// `return value` (12.9).
    ReturnValue(At, Expr),

    /// `throw value` (12.13).
    Throw(At, Expr),

    /// A declared function (13). Its place is in the function.
    FunctionDeclaration(Function),
}

/// `name`, or `name = value`, in a `var` (12.2).
#[cycle(ast)]
#[derive(Drop)]
pub struct Declaration {
    /// Where the name stands.
    pub at: At,
    pub name: Text,
    pub value: Option<Expr>,
}

/// What a `for` begins with (12.6.3).
#[cycle(ast)]
#[derive(Drop)]
pub enum Init {
    Absent,

    /// The place of `var`, and its declarations.
    Declarations(At, Items<Declaration>),
    Initial(Expr),
}

/// What a `for` with `in` assigns to (12.6.4).
#[cycle(ast)]
#[derive(Drop)]
pub enum Goal {
    /// `var name`: the place of `var`, that of the name, and the name.
    Variable(At, At, Text),
    Target(Expr),
}
