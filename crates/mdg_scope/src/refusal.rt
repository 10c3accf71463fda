//! Why a file is refused.

use mdg_base::{NoMemory, Text};
use std::alloc::{AllocError, AllocFailed};
use thiserror::Error;

/// Why `bind` has no bindings to give. Each rule comes with the name that violates it, where there is one,
/// and with an offset.
#[derive(Debug, Drop, Error)]
pub enum ScopeRefusal {
    /// `eval` is bound or assigned (12.2.1, 13.1, 11.13.1), two parameters have one name (13.1), a name is
    /// deleted (11.4.1), two keys of an initialiser are equal (11.1.5), or a global or a literal name is
    /// assigned: the name or key, and its offset, or that of the `delete`.
    #[error("a binding at {1} is refused")]
    BadBinding(Text, u32),

    /// A name means nothing, and isn't the whole operand of `typeof`: the name, and its offset.
    #[error("a name at {1} means nothing")]
    Unbound(Text, u32),

    /// `require`, where nothing binds it, isn't called with one text, or the text is empty, begins with `/`,
    /// is relative and ends in `.node`, or leaves the folder: the offset of `require`.
    #[error("a require at {0} is refused")]
    BadRequire(u32),

    /// The operand of `new` isn't a name that means a global: the offset of `new`.
    #[error("a new at {0} makes no listed thing")]
    BadNew(u32),

    /// `break` or `continue` stands in no loop of its function (12.7, 12.8): its offset.
    #[error("a jump at {0} leaves no loop")]
    BadJump(u32),

    /// Memory was refused.
    #[error("out of memory")]
    NoMemory,
}

impl From<NoMemory> for ScopeRefusal {
    ghost use Rattle.std.specs.Prelude.{◌≡◌};
    ghost use Rattle.mdg_scope.specs.declared.refusal.ScopeRefusal.TheVariants as refusal;

    ghost from_gives = { λ _ e. e ≡ refusal.NoMemory };

    fn from(_: NoMemory) -> ScopeRefusal {
        ScopeRefusal::NoMemory
    }
}

impl From<AllocError> for ScopeRefusal {
    ghost use Rattle.std.specs.Prelude.{◌≡◌};
    ghost use Rattle.mdg_scope.specs.declared.refusal.ScopeRefusal.TheVariants as refusal;

    ghost from_gives = { λ _ e. e ≡ refusal.NoMemory };

    fn from(_: AllocError) -> ScopeRefusal {
        ScopeRefusal::NoMemory
    }
}

impl<T: Drop> From<AllocFailed<T>> for ScopeRefusal {
    ghost use Rattle.std.specs.Prelude.{◌≡◌};
    ghost use Rattle.mdg_scope.specs.declared.refusal.ScopeRefusal.TheVariants as refusal;

    ghost from_gives = { λ _ e. e ≡ refusal.NoMemory };

    fn from(_: AllocFailed<T>) -> ScopeRefusal {
        ScopeRefusal::NoMemory
    }
}
