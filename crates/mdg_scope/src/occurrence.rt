//! Where the tree of a file binds and uses names, and where its functions, `delete`, `new` and jumps stand:
//! one list of occurrences.

use mdg_base::{Items, Text};

/// Where a part stands.
#[derive(Clone, Copy, Debug, PartialEq, Eq)]
pub struct Context {
    /// The number of the function in which it stands.
    pub function: u32,

    /// Whether a loop of that function is around it.
    pub in_loop: bool,
}

/// What an occurrence is. Parentheses never stand between.
#[derive(Debug, Drop)]
pub enum OccurrenceKind {
    /// The body of a file binds the name by itself: `module`, `exports`.
    Given,

    /// A parameter that is no parameter before it (13).
    Parameter,

    /// A parameter that is one before it, too (13.1).
    RepeatedParameter,

    /// A name of a `var` (12.2).
    Variable,

    /// The name of a declared function (13), in the function around it.
    Declared,

    /// The name of a function expression (13), in that function.
    Own,

    /// A name whose value is read (11.1.2).
    Read,

    /// A name that is assigned, stepped, or the goal of a `for` with `in` (11.13, 11.3, 11.4, 12.6.4).
    Assigned,

    /// A name that is the whole operand of `typeof` (11.4.3).
    TypeOperand,

    /// A name that is called with one text (11.2.3).
    Called(Callee),

    /// A `delete` whose operand is the name (11.4.1).
    Deleted,

    /// The name of a property that an earlier property of the initialiser has (11.1.5).
    RepeatedKey,

    /// A `new` whose operand is the name (11.2.2).
    Constructed,

    /// A `new` whose operand is no name (11.2.2).
    OtherConstructed,

    /// A `break` or `continue` in no loop of its function (12.7, 12.8).
    LooseJump,

    /// A function begins (13).
    Begins(Head),
}

/// How a name is called.
#[derive(Debug, Drop)]
pub struct Callee {
    /// The line of the name.
    pub line: u32,

    /// The text that is the only argument.
    pub text: Text,
}

/// The head of a function.
#[derive(Debug, Drop)]
pub struct Head {
    /// The number of the function.
    pub number: u32,
    pub name: Option<Text>,
    pub parameters: Items<Text>,
    pub line: u32,
}

/// A place of a file at which a name is bound or used, a function begins, or a rule of bindings looks.
#[derive(Debug, Drop)]
pub struct Occurrence {
    pub kind: OccurrenceKind,
    pub offset: u32,

    /// The number of the function in which it stands.
    pub within: u32,

    /// The name, and empty where there is none.
    pub name: Text,
}

/// The occurrences so far.
#[derive(Debug, Drop)]
pub struct Occurrences {
    pub all: Items<Occurrence>,

    /// How many functions began.
    pub begun: u32,
}

/// How an expression is used.
#[derive(Debug, Drop)]
pub enum Use {
    /// Its value is read.
    Read,

    /// It is assigned.
    Assigned,

    /// It is the whole operand of `typeof`.
    TypeOperand,

    /// It is called with this text alone.
    Called(Text),
}
