//! Why bytes are no profile.

use mdg_base::NoMemory;
use std::alloc::{AllocError, AllocFailed};
use thiserror::Error;

/// Why `read_profile` has no profile to give. Entries are counted from 0.
#[derive(Clone, Copy, Debug, PartialEq, Eq, Error)]
pub enum ProfileRefusal {
    /// The bytes are no UTF-8, or no JSON that nests at most 127 deep.
    #[error("no JSON")]
    NotJson,

    /// The value is no object of exactly `version`, the number 1, and `entries`, an array.
    #[error("no profile")]
    NotProfile,

    /// The entry with this number is out of form.
    #[error("entry {0} is out of form")]
    BadMember(u64),

    /// The entry with this number is in form, and an earlier one has its home, name and member.
    #[error("entry {0} repeats a name")]
    RepeatedName(u64),

    /// Memory was refused.
    #[error("out of memory")]
    NoMemory,
}

impl From<NoMemory> for ProfileRefusal {
    ghost use Rattle.std.specs.Prelude.{◌≡◌};
    ghost use Rattle.mdg_profile.specs.declared.refusal.ProfileRefusal.TheVariants as refusal;

    ghost from_gives = { λ _ e. e ≡ refusal.NoMemory };

    fn from(_: NoMemory) -> ProfileRefusal {
        ProfileRefusal::NoMemory
    }
}

/// Why a value gives no entry, or no part of one.
#[derive(Clone, Copy, Debug, PartialEq, Eq)]
pub enum EntryFault {
    /// It is out of form.
    OutOfForm,

    /// Memory was refused.
    NoMemory,
}

impl From<NoMemory> for EntryFault {
    ghost use Rattle.std.specs.Prelude.{◌≡◌};
    ghost use Rattle.mdg_profile.specs.declared.refusal.EntryFault.TheVariants as fault;

    ghost from_gives = { λ _ e. e ≡ fault.NoMemory };

    fn from(_: NoMemory) -> EntryFault {
        EntryFault::NoMemory
    }
}

impl<T: Drop> From<AllocFailed<T>> for EntryFault {
    ghost use Rattle.std.specs.Prelude.{◌≡◌};
    ghost use Rattle.mdg_profile.specs.declared.refusal.EntryFault.TheVariants as fault;

    ghost from_gives = { λ _ e. e ≡ fault.NoMemory };

    fn from(_: AllocFailed<T>) -> EntryFault {
        EntryFault::NoMemory
    }
}
