//! What the names of a function stand for.

use crate::offsets::OffsetTable;
use mdg_base::{CellId, FileId, FunId, Items, Local, Text};
use mdg_scope::Names;

/// The names that a function binds.
#[derive(Drop)]
pub struct Bindings<'a> {
    /// The parameters, and then the other names that are no cells. Each has the local of its number.
    pub locals: Names<'a>,

    /// The names that are cells.
    pub cells: Names<'a>,

    /// The function's own name, where it means the function itself.
    pub own: Names<'a>,

    /// The number of its first cell.
    pub first_cell: u32,

    /// The number of the function around it, within the file.
    pub parent: Option<u32>,
}

/// What a name means.
#[derive(Clone, Copy, Debug, PartialEq, Eq)]
pub enum Meaning {
    /// A local of the function, and whether it is the own name of a function expression.
    Local(Local, bool),

    /// A cell of the function or of one around it, and whether it is the own name of a function expression.
    Cell(CellId, bool),

    /// The function `require` of modules.
    Require,

    /// `undefined`, `NaN` or `Infinity`.
    Literal,

    /// A global of the profile.
    Global,
    Nothing,
}

/// What a call of `require` asks for.
#[derive(Debug, Drop)]
pub enum Dependency {
    /// A module outside the package.
    Module(Text),

    /// A file of the package, and the cell of its module object.
    File(FileId, CellId),
}

/// What the names and offsets of a file stand for, in one of its functions.
#[derive(Drop)]
pub struct Scope<'a> {
    pub file: FileId,

    /// The cell of the file's module object.
    pub module: CellId,

    /// The globals of the profile.
    pub globals: Names<'a>,

    /// The number of the file's body.
    pub first_function: u32,

    /// The functions of the file.
    pub all_bindings: Items<Bindings<'a>>,

    /// Where their keywords `function` stand.
    pub functions: OffsetTable,

    /// Where the names `require` of its calls stand.
    pub required: OffsetTable,

    /// What these calls ask for.
    pub dependencies: Items<Dependency>,

    /// The number of this function within the file.
    pub number: u32,
    pub function: FunId,

    /// Where the `for` statements with `in` of this function stand. Each has a local.
    pub loops: OffsetTable,

    /// The first of these locals.
    pub first_loop: u32,

    /// The first temporary.
    pub temporaries: u32,
}
