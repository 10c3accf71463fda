//! The facts of the graph: nodes in rows.

use mdg_base::{CellId, Column, FunId, Local, NodeName, SharedId, Site};

/// A set of nodes.
#[derive(Clone, Copy, Debug, PartialEq, Eq, PartialOrd, Ord)]
pub enum Row {
    /// What a local may be right before the statement.
    Loc(Site, Local),

    /// What a cell may hold at any time.
    Cell(CellId),

    /// What the property of the node's object may hold.
    Field(NodeName, Column),

    /// The versions of the node's object that come after it.
    Newer(NodeName),

    /// What is computed from the node.
    Dep(NodeName),

    /// What goes into the operator at the statement.
    Known(Site),

    /// What the outer caller can reach from the exports.
    Exp,

    /// The objects of the function.
    IsFunction(FunId),

    /// The objects of the shared thing.
    IsShared(SharedId),
}

/// A node stands in a row.
#[derive(Clone, Copy, Debug, PartialEq, Eq, PartialOrd, Ord)]
pub struct Fact {
    pub row: Row,
    pub node: NodeName,
}
