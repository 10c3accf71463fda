//! A file with its bindings.

use mdg_base::{FileId, Items, Text};
use mdg_tree::FileTree;

/// A file, with what its functions bind and what it requires.
#[derive(Drop)]
pub struct Bound {
    /// The path of the file from the package's folder.
    pub path: Text,
    pub tree: FileTree,

    /// The body of the file, and then its functions by the offset of their keyword `function`.
    pub functions: Items<BoundFunction>,

    /// The calls of `require`, by offset.
    pub required: Items<Require>,
}

/// What a function binds (10.5, 13). The body of a file counts as a function.
#[derive(Debug, Drop)]
pub struct BoundFunction {
    /// The number of the function around it. The body of the file, which is function 0, has none.
    pub parent: Option<u32>,

    /// The name that stands after the keyword `function`.
    pub name: Option<Text>,

    /// The parameters in order, those that are cells too.
    pub parameters: Items<Text>,

    /// The other names that it binds and no nested function uses, by the first token that binds or
    /// means them; in the body of a file `module` and `exports` come first.
    pub locals: Items<Text>,

    /// The names that it binds and a nested function uses: parameters first, then in the order of `locals`.
    pub cells: Items<Text>,

    /// Whether it is a function expression whose own name is bound in it to the function itself (13),
    /// and some name in it means that.
    pub own_name: bool,

    /// The line of the keyword `function`, from 1; for the body of a file that of its first token.
    pub line: u32,

    /// The offset of the keyword `function`; for the body of a file that of its first token.
    pub offset: u32,
}

/// A call of `require` with a text, where no binding has that name.
#[derive(Debug, Drop)]
pub struct Require {
    /// The offset of the name `require`.
    pub offset: u32,

    /// The line of the name `require`, from 1.
    pub line: u32,

    /// The text. A bare one stands without `node:`, and one that names data as `./` and its path from
    /// the package's folder.
    pub text: Text,
    pub goal: Goal,
}

/// What a call of `require` asks for.
#[derive(Clone, Copy, Debug, PartialEq, Eq)]
pub enum Goal {
    /// A module or data outside the package.
    Bare,

    /// A file of the package, which is not found yet.
    Path,

    /// That file of the package.
    File(FileId),
}
