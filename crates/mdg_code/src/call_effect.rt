//! What a call of a listed name may do. The kind of an entry is asked in these two words alone.
ghost use Rattle.std.specs.Prelude.{◌≡◌};
ghost use Rattle.mdg_code.specs.CallEffect.{hands_arguments, is_active_kind};

use mdg_base::Kind;

/// Whether a call may do anything with what it is handed. A quiet one only answers from its arguments.
pub fn is_active_kind(kind: &Kind) -> bool
    ensures { result ≡ is_active_kind kind.now }
{
    match kind {
        Kind::Sink(_) | Kind::Active => true,
        Kind::Quiet => false,
    }
}

/// Whether what a call answers may come from its arguments. It may at each kind, also at a quiet one.
pub fn hands_arguments(kind: &Kind) -> bool
    ensures { result ≡ hands_arguments kind.now }
{
    match kind {
        Kind::Sink(_) | Kind::Quiet | Kind::Active => true,
    }
}
