//! The lowered code of a file of the first form.

use mdg_base::{CellId, Column, FunId, Items, Kind, Local, SharedId, Site, Text};

/// A statement of the lowered code. Each does one thing to the locals of its function.
#[derive(Debug, Drop)]
pub enum Statement {
    /// `into` is a primitive. It is the text, or any primitive where there is none.
    Literal {
        into: Local,
        text: Option<Text>,
    },

    /// `into` is what `of` is.
    Copy {
        into: Local,
        of: Local,
    },

    /// `into` is what an operator gives for the operands.
    Op {
        into: Local,
        of: Items<Local>,
    },

    /// `into` is a new object without properties.
    Object {
        into: Local,
    },

    /// `into` is a new function object.
    Function {
        into: Local,
        function: FunId,
    },

    /// `into` is a shared thing.
    Shared {
        into: Local,
        shared: SharedId,
    },

    /// The property of the object in `of` becomes `value`.
    Set {
        of: Local,
        column: Column,
        value: Local,
    },

    /// The cell becomes `value`.
    SetCell {
        cell: CellId,
        value: Local,
    },

    /// `callee` is called with the arguments. The next statement is the call's land.
    Call {
        into: Local,
        callee: Local,
        arguments: Items<Local>,
    },

    /// Where a call comes back.
    Land,

    /// The function ends with this value.
    Return {
        value: Local,
    },
}

/// A statement with the function that it belongs to, and the line of the file that it comes from, counted from 1.
#[derive(Debug, Drop)]
pub struct Line {
    pub statement: Statement,
    pub function: FunId,
    pub line: u32,
}

/// A function: how many parameters it has, and its first statement.
#[derive(Debug, Drop)]
pub struct FunctionRow {
    pub parameters: u32,
    pub entry: Site,
}

/// A shared thing: its name, and what its call does.
#[derive(Debug, Drop)]
pub struct SharedRow {
    pub name: Text,
    pub kind: Kind,
}

/// The code of one file. Function 0 is the body of the file, cell 0 holds the file's module object,
/// and column 0 is the property `exports`.
#[derive(Debug, Drop)]
pub struct Code {
    pub lines: Items<Line>,
    pub functions: Items<FunctionRow>,
    pub shared: Items<SharedRow>,
}
