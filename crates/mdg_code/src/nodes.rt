//! Which nodes of the graph a statement has.
ghost use Rattle.std.specs.Prelude.{◌≡◌};
ghost use Rattle.mdg_code.specs.Nodes.{has_fields, has_outside_node, has_site_node};

use crate::Statement;

/// Whether it has a node for what it makes, finds or computes itself.
pub fn has_site_node(statement: &Statement) -> bool
    ensures { result ≡ has_site_node statement.now }
{
    matches!(
        statement,
        Statement::Op { .. }
            | Statement::Object { .. }
            | Statement::Function { .. }
            | Statement::Get { .. }
            | Statement::GetAt { .. }
            | Statement::Set { .. }
            | Statement::SetAt { .. }
            | Statement::Call { .. }
    )
}

/// Whether it has a node for what outside code hands back at it: lookups and calls have one.
pub fn has_outside_node(statement: &Statement) -> bool
    ensures { result ≡ has_outside_node statement.now }
{
    matches!(
        statement,
        Statement::Get { .. } | Statement::GetAt { .. } | Statement::Call { .. }
    )
}

/// Whether its own node stands for an object, which has fields. Nodes of operators and lookups have none;
/// an outside node always has fields.
pub fn has_fields(statement: &Statement) -> bool
    ensures { result ≡ has_fields statement.now }
{
    has_site_node(statement)
        && !matches!(
            statement,
            Statement::Op { .. } | Statement::Get { .. } | Statement::GetAt { .. }
        )
}
