//! Why files have no code.

use mdg_base::NoMemory;
use std::alloc::{AllocError, AllocFailed};
use thiserror::Error;

/// Why `lower` has no code to give.
#[derive(Clone, Copy, Debug, PartialEq, Eq, Error)]
pub enum LowerRefusal {
    /// There are more than 32,768 statements: so many.
    #[error("{0} statements are too many")]
    TooManySites(u64),

    /// There are no more than 32,768 statements, but more than 2,048 static property names: so many.
    #[error("{0} static property names are too many")]
    TooManyNames(u64),

    /// Memory was refused.
    #[error("out of memory")]
    NoMemory,
}

impl From<NoMemory> for LowerRefusal {
    ghost use Rattle.std.specs.Prelude.{◌≡◌};
    ghost use Rattle.mdg_lower.specs.declared.refusal.LowerRefusal.TheVariants as refusal;

    ghost from_gives = { λ _ e. e ≡ refusal.NoMemory };

    fn from(_: NoMemory) -> LowerRefusal {
        LowerRefusal::NoMemory
    }
}

impl From<AllocError> for LowerRefusal {
    ghost use Rattle.std.specs.Prelude.{◌≡◌};
    ghost use Rattle.mdg_lower.specs.declared.refusal.LowerRefusal.TheVariants as refusal;

    ghost from_gives = { λ _ e. e ≡ refusal.NoMemory };

    fn from(_: AllocError) -> LowerRefusal {
        LowerRefusal::NoMemory
    }
}

impl<T: Drop> From<AllocFailed<T>> for LowerRefusal {
    ghost use Rattle.std.specs.Prelude.{◌≡◌};
    ghost use Rattle.mdg_lower.specs.declared.refusal.LowerRefusal.TheVariants as refusal;

    ghost from_gives = { λ _ e. e ≡ refusal.NoMemory };

    fn from(_: AllocFailed<T>) -> LowerRefusal {
        LowerRefusal::NoMemory
    }
}
