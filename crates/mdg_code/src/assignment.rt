//! Which local a statement assigns, and which it writes to.
ghost use Rattle.std.specs.Prelude.{◌≡◌};
ghost use Rattle.mdg_code.specs.Assignment.{assigned, written};

use crate::Statement;
use mdg_base::Local;

/// The local that the statement gives a new value. A call assigns its local at its land.
pub fn assigned(statement: &Statement) -> Option<Local>
    ensures { result ≡ assigned statement.now }
{
    match statement {
        Statement::Literal { into, .. }
        | Statement::Copy { into, .. }
        | Statement::Op { into, .. }
        | Statement::Object { into }
        | Statement::Function { into, .. }
        | Statement::Own { into }
        | Statement::Shared { into, .. }
        | Statement::Get { into, .. }
        | Statement::GetAt { into, .. }
        | Statement::Cell { into, .. }
        | Statement::Call { into, .. } => Some(*into),
        Statement::Set { .. }
        | Statement::SetAt { .. }
        | Statement::SetCell { .. }
        | Statement::Branch { .. }
        | Statement::Land
        | Statement::Return { .. }
        | Statement::Load { .. }
        | Statement::Throw { .. } => None,
    }
}

/// The local whose object gets a new value for a property: that of a `Set` and a `SetAt`. The local itself
/// is not assigned.
pub fn written(statement: &Statement) -> Option<Local>
    ensures { result ≡ written statement.now }
{
    match statement {
        Statement::Set { of, .. } | Statement::SetAt { of, .. } => Some(*of),
        Statement::Literal { .. }
        | Statement::Copy { .. }
        | Statement::Op { .. }
        | Statement::Object { .. }
        | Statement::Function { .. }
        | Statement::Own { .. }
        | Statement::Shared { .. }
        | Statement::Get { .. }
        | Statement::GetAt { .. }
        | Statement::Cell { .. }
        | Statement::SetCell { .. }
        | Statement::Branch { .. }
        | Statement::Call { .. }
        | Statement::Land
        | Statement::Return { .. }
        | Statement::Load { .. }
        | Statement::Throw { .. } => None,
    }
}
