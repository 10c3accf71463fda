ghost use Rattle.std.specs.Prelude.{◌≡◌};
ghost use Rattle.mdg_site.specs.CodeTests.{outlives};

use mdg_base::{CellId, Column, FunId, Local, NodeName, SharedId, Site};

/// A row of the graph: a set of nodes. Nodes are meant by their names, so that a row can be named where no
/// node has that name; then there is no such row.
#[derive(Clone, Copy, Debug, PartialEq, Eq)]
pub enum Row {
    /// What the local may be right before the statement.
    Loc(Site, Local),

    /// What the cell may hold.
    Cell(CellId),

    /// What the property of the node's object may hold.
    Field(NodeName, Column),

    /// The versions that come after the node.
    Newer(NodeName),

    /// What is computed from the node.
    Dep(NodeName),

    /// What the function may return.
    Ret(FunId),

    /// What goes into the operator, or what outside code knows at the call.
    Known(Site),

    /// What the outer caller can reach from the exports.
    Exp,

    /// The objects of the function.
    IsFunction(FunId),

    /// The objects of the shared thing.
    IsShared(SharedId),

    /// Objects that may have properties of which nothing is known.
    Vague,

    /// Objects whose call runs outside code.
    Foreign,
}

/// A fact: the node stands in the row.
#[derive(Clone, Copy, Debug, PartialEq, Eq)]
pub struct Fact {
    pub row: Row,
    pub node: NodeName,
}

/// Whether the row outlives a statement, and no statement has it of its own.
pub fn outlives(row: Row) -> bool
    ensures { result ≡ outlives row }
{
    match row {
        Row::Cell(..)
        | Row::Field(..)
        | Row::Exp
        | Row::IsFunction(..)
        | Row::IsShared(..)
        | Row::Vague
        | Row::Foreign => true,
        Row::Loc(..) | Row::Newer(..) | Row::Dep(..) | Row::Ret(..) | Row::Known(..) => false,
    }
}
