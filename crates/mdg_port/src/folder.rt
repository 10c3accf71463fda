ghost use Rattle.std.specs.Prelude.{◌≡◌, ℕ, OnSome, IfSome, IfOk};
ghost use Rattle.std.specs.declared.option.Option.{Option};
ghost use Rattle.mdg_port.specs.Causes.{HasCause, one_more};
ghost use Rattle.mdg_port.specs.Held.{Held};
ghost use Rattle.mdg_port.specs.Reads.{fetched, IsWithin};

use mdg_base::{Items, NoMemory};
use std::alloc::Global;
use thiserror::Error;

/// What a read found at a path.
#[derive(Debug, Drop)]
pub enum Fetched {
    /// There is no file.
    Absent,

    /// The file has more bytes than were asked for.
    TooLong,

    /// All bytes of the file.
    Bytes(Items<u8>),
}

/// Why a read found nothing out.
#[derive(Clone, Copy, Debug, PartialEq, Eq, Error)]
pub enum FolderFault {
    /// The folder failed, which its count of faults shows.
    #[error("the read failed")]
    Failed,

    /// Memory was refused.
    #[error("out of memory")]
    NoMemory,
}

impl From<NoMemory> for FolderFault {
    ghost use Rattle.mdg_port.specs.declared.folder.FolderFault.{FolderFault};

    ghost from_gives = { λ _ e. e ≡ FolderFault.NoMemory };

    fn from(_: NoMemory) -> Self {
        FolderFault::NoMemory
    }
}

/// A folder whose files are read whole, by paths from its root with `/` between their segments.
pub trait Folder {
    /// What it holds, where it tells that.
    ghost held: { Self → Option Held };

    /// How many reads there were. It says something only where `held` is told.
    ghost reads: { Self → ℕ };

    /// How often a read failed. It never falls, and stands still at 2^64 - 1.
    ghost faults: { Self → ℕ };

    /// Reads the file at the path, where it has at most `limit` bytes.
    fn read(&mut self, alloc: Global, path: &str, limit: u64) -> Result<Fetched, FolderFault>
        ensures same { held self.new ≡ held self.old }
        ensures counted { OnSome (held self.old) (reads self.new ≡ one_more (reads self.old)) }
        ensures cause { HasCause (faults self.old) (faults self.new) result FolderFault.Failed }
        ensures within { IfOk result (IsWithin limit) }

        // What is held decides each answer but a fault and want of memory.
        ensures given { IfOk result (λ answer. IfSome (held self.old) (λ files. answer ≡ fetched files path.now limit)) };
}
