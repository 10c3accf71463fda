//! Which nodes and rows a statement has of its own.
ghost use Rattle.std.specs.Prelude.{◌≡◌, ◌≤◌};
ghost use Rattle.mdg_site.specs.Shapes.{first_of, has_known, one_if, second_of, shape_of};

use mdg_code::{Statement, has_fields, has_outside_node, has_site_node};

/// Which nodes and rows a statement has of its own.
#[derive(Clone, Copy, Debug, PartialEq, Eq)]
pub struct Shape {
    /// A node for what it makes, finds or computes itself.
    pub own: bool,

    /// A node for what outside code hands back at it.
    pub outside: bool,

    /// Whether its own node stands for an object, which has fields.
    pub fields: bool,

    /// A row for what goes into it.
    pub known: bool,
}

/// Whether the statement has a row for what goes into it: operators and calls have one.
pub fn has_known(statement: &Statement) -> bool
    ensures { result ≡ has_known statement.now }
{
    matches!(statement, Statement::Op { .. } | Statement::Call { .. })
}

/// Which nodes and rows the statement has.
pub fn shape_of(statement: &Statement) -> Shape
    ensures { result ≡ shape_of statement.now }
{
    Shape {
        own: has_site_node(statement),
        outside: has_outside_node(statement),
        fields: has_fields(statement),
        known: has_known(statement),
    }
}

/// 1 for what is there, and 0 for what isn't.
pub fn one_if(there: bool) -> u32
    ensures is { result ≡ one_if there }
    ensures within { result ≤ 1 }
{
    if there { 1 } else { 0 }
}

/// Of two things that may be there, the number of the first among those that are.
pub fn first_of(there: bool) -> Option<u32>
    ensures { result ≡ first_of there }
{
    if there { Some(0) } else { None }
}

/// The number of the second.
pub fn second_of(first: bool, there: bool) -> Option<u32>
    ensures { result ≡ second_of first there }
{
    if there { Some(one_if(first)) } else { None }
}
