//! Why a package is refused.

use mdg_base::{NoMemory, Text};
use mdg_read::ReadRefusal;
use mdg_scope::ScopeRefusal;
use mdg_text::TextFault;
use std::alloc::{AllocError, AllocFailed};
use thiserror::Error;

/// Why `gather` has no package to give. A path is one from the package's folder. A line counts from 1, and is 1
/// where the refusal that is carried has no offset. What is carried is never the refusal of memory.
#[derive(Debug, Drop, Error)]
pub enum PackFault {
    /// `package.json` is no object of JSON, or its `main` is no text, leaves the folder, or ends in `.json` or `.node`.
    #[error("package.json is no manifest")]
    BadManifest,

    /// None of the candidates for the entry or for a required file is there: the last of them.
    #[error("a file is missing")]
    NoFile(Text),

    /// The file at this path has more than 1,048,576 bytes.
    #[error("a file is too long")]
    TooLong(Text),

    /// There are more than 256 files: the number of the first that is too many, counted from 1.
    #[error("{0} files or more")]
    TooManyFiles(u64),

    /// The file at this path is no list of tokens (ECMA-262 5.1, 7), and the line of that.
    #[error("line {2}: {1}")]
    Text(Text, TextFault, u32),

    /// The file at this path has no tree (ECMA-262 5.1, 11 to 14), and the line of that.
    #[error("line {2}: {1}")]
    Read(Text, ReadRefusal, u32),

    /// The file at this path breaks a rule of names, `require`, `new` or jumps, and the line of that.
    #[error("line {2}: {1}")]
    Scope(Text, ScopeRefusal, u32),

    /// The read of this path failed, which the folder's count of faults shows.
    #[error("a read failed")]
    FolderFailed(Text),

    /// Memory was refused.
    #[error("out of memory")]
    NoMemory,
}

impl From<NoMemory> for PackFault {
    ghost use Rattle.std.specs.Prelude.{◌≡◌};
    ghost use Rattle.mdg_pack.specs.declared.fault.PackFault.TheVariants as fault;

    ghost from_gives = { λ _ e. e ≡ fault.NoMemory };

    fn from(_: NoMemory) -> PackFault {
        PackFault::NoMemory
    }
}

impl From<AllocError> for PackFault {
    ghost use Rattle.std.specs.Prelude.{◌≡◌};
    ghost use Rattle.mdg_pack.specs.declared.fault.PackFault.TheVariants as fault;

    ghost from_gives = { λ _ e. e ≡ fault.NoMemory };

    fn from(_: AllocError) -> PackFault {
        PackFault::NoMemory
    }
}

impl<T: Drop> From<AllocFailed<T>> for PackFault {
    ghost use Rattle.std.specs.Prelude.{◌≡◌};
    ghost use Rattle.mdg_pack.specs.declared.fault.PackFault.TheVariants as fault;

    ghost from_gives = { λ _ e. e ≡ fault.NoMemory };

    fn from(_: AllocFailed<T>) -> PackFault {
        PackFault::NoMemory
    }
}
