ghost use Rattle.std.specs.Prelude.{◌≡◌, Some, OnOk, OnErr, IfOk, IsErrOf};
ghost use Rattle.std.specs.Option.{option_copied};
ghost use Rattle.mdg_port.specs.Held.{held_at, held_nothing, held_of, held_with};
ghost use Rattle.mdg_port.specs.Reads.{fetched};

use crate::{Fetched, Folder, FolderFault};
use mdg_base::{Items, NoMemory, Text};
use std::alloc::Global;
use std::collections::VecDeque;
use std::marker::Model;

/// A folder in memory. Its reads never fail, and it tells what it holds.
#[derive(Drop)]
pub struct MemFolder {
    alloc: Global,

    // the newest first: a file that was replaced stays after the one that replaced it
    files: VecDeque<(Text, Items<u8>)>,
    reads: u64,
}

impl Model for MemFolder {
    ghost use Rattle.std.specs.Prelude.{ℕ, List};
    ghost use Rattle.std.specs.Coded.{coded×, coded_ℕ, coded_list};
    ghost use Rattle.std.specs.FinMap as map;
    ghost use Rattle.mdg_port.specs.Held.{Held, held_of};

    ghost Value = { Held × ℕ };

    ghost coded = { coded× (map.code (coded_list coded_ℕ) (coded_list coded_ℕ)) coded_ℕ };

    ghost view = { λ f. (held_of f.files.items, f.reads) };
}

// What the list of files has at a path: the newest file there.
fn find<'a>(files: &'a VecDeque<(Text, Items<u8>)>, path: &str) -> Option<&'a Items<u8>>
    ensures { option_copied result ≡ held_at (held_of files.now.items) path.now }
{
    for (name, bytes) in files {
        if path == name.as_str() {
            return Some(bytes);
        }
    }
    None
}

impl MemFolder {
    /// A folder that holds nothing and was never read.
    pub fn create(alloc: Global) -> Result<MemFolder, NoMemory>
        ensures { IfOk result (λ f. f ≡ (held_nothing, 0)) }
    {
        Ok(MemFolder {
            alloc,
            files: VecDeque::new(alloc),
            reads: 0,
        })
    }

    /// Holds these bytes at this path, in place of others there. A refused call changes nothing.
    pub fn hold(&mut self, path: &str, bytes: &[u8]) -> Result<(), NoMemory>
        ensures ok { OnOk result (self.new ≡ (held_with self.old.0 path.now bytes.now, self.old.1)) }
        ensures err { OnErr result (self.new ≡ self.old) }
    {
        let name = Text::of(self.alloc, path)?;
        let held = copied(self.alloc, bytes)?;
        self.files.push_front((name, held))?;
        Ok(())
    }
}

// A list of these bytes.
fn copied(alloc: Global, bytes: &[u8]) -> Result<Items<u8>, NoMemory>
    ensures { IfOk result (λ items. items ≡ bytes.now) }
{
    Ok(Items::from_vec(Vec::from_slice(alloc, bytes)?))
}

// A copy of the newest file at the path.
fn fetch(
    alloc: Global,
    files: &VecDeque<(Text, Items<u8>)>,
    path: &str,
    limit: u64,
) -> Result<Fetched, FolderFault>
    ensures ok { IfOk result (λ answer. answer ≡ fetched (held_of files.now.items) path.now limit) }
    ensures err { OnErr result (IsErrOf result FolderFault.NoMemory) }
{
    let Some(bytes) = find(files, path) else {
        return Ok(Fetched::Absent);
    };
    if bytes.as_slice().len() as u64 > limit {
        return Ok(Fetched::TooLong);
    }
    Ok(Fetched::Bytes(copied(alloc, bytes.as_slice())?))
}

impl Folder for MemFolder {
    ghost held = { λ f. Some f.0 };

    ghost reads = { λ f. f.1 };

    ghost faults = { λ f. 0 };

    fn read(&mut self, alloc: Global, path: &str, limit: u64) -> Result<Fetched, FolderFault> {
        self.reads = self.reads.saturating_add(1);
        fetch(alloc, &self.files, path, limit)
    }
}
