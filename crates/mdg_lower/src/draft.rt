//! Drafts: statements before everything that they name has its number.

use mdg_base::{FunId, Home, Local, Place, Site, Text};
use mdg_code::Statement;

/// Where a branch goes on. `Break` and `Continue` are resolved once the loop around them is laid out.
#[derive(Clone, Copy, Debug, PartialEq, Eq)]
pub enum Label {
    /// At this statement.
    Site(Site),

    /// After the innermost loop around it (12.8).
    Break,

    /// At the next iteration of the innermost loop around it (12.7).
    Continue,
}

/// A statement. Property names have no columns yet, shared things no numbers, and jumps may wait for
/// the loop around them.
#[derive(Debug, Drop)]
pub enum Draft {
    /// A complete statement: no branch, and none that names a property or a shared thing.
    Complete(Statement),

    /// `into` is the property of `of` with this name.
    Get { into: Local, of: Local, name: Text },

    /// The property of `of` with this name becomes `value`.
    Set { of: Local, name: Text, value: Local },

    /// `into` is the global or the module with this name.
    Shared { into: Local, home: Home, name: Text },

    /// The run goes on at either target.
    Branch { left: Label, right: Label },
}

/// A draft, where it comes from, and the function in which it lies.
#[derive(Debug, Drop)]
pub struct DraftLine {
    pub draft: Draft,
    pub place: Place,
    pub function: FunId,
}
