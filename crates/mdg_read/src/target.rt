//! What may be assigned.

ghost use Rattle.std.specs.Prelude.{◌≡◌, ◌≢◌, ◌<◌, ◌+◌, ◌-◌, true, length, map, IfOk, IfSome};
ghost use Rattle.mdg_read.specs.Target as targets;

use mdg_tree::Expr;

/// Whether it may be assigned: a name or a member.
#[tactic(auto, unfolding(crate::specs::Target::is_assignment_target))]
pub fn is_assignment_target(tree: &Expr) -> bool
    ensures { result ≡ targets.is_assignment_target tree.now }
{
    match tree {
        Expr::Name(..) | Expr::Member(..) | Expr::Index(..) => true,
        _ => false,
    }
}
