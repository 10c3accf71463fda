//! How a file is found: its candidates in order, each read at most once.
ghost use Rattle.std.specs.Prelude.{◌≡◌, ◌<◌, None, length, IfOk};
ghost use Rattle.mdg_pack.specs.Effects.{Answers, IsRegistered, IsSound, Saw, Stays, folder_view};
ghost use Rattle.mdg_pack.specs.ModuleResolution as spec;
ghost use Rattle.mdg_pack.specs.ModuleResolution.{probed, resolved};
ghost use Rattle.mdg_pack.specs.ModuleTable as tables;

use crate::PackFault;
use crate::module_table::{ModuleTable, lookup};
use mdg_base::{Items, NoMemory, Text};
use mdg_port::{Fetched, Folder, FolderFault};
use std::alloc::Global;

// The most files of a package.
const MOST_FILES: usize = 256;

/// The most bytes of a file.
pub const MOST_BYTES: u64 = 1_048_576;

// A new file at a path.
fn register(
    alloc: Global,
    table: &mut ModuleTable,
    path: &str,
    bytes: Items<u8>,
) -> Result<Option<u32>, PackFault>
    ensures { IsRegistered table.old table.new path.now bytes result }
{
    if table.files.as_slice().len() >= MOST_FILES {
        return Err(PackFault::TooManyFiles(MOST_FILES as u64 + 1));
    }
    Ok(Some(table.add_file(alloc, path, bytes)?))
}

// What a read of a path gives.
fn read_candidate<F: Folder>(
    alloc: Global,
    folder: &mut F,
    table: &mut ModuleTable,
    path: &str,
) -> Result<Option<u32>, PackFault>
    requires sound { IsSound table.old }
    requires saw { Saw (F.held folder.old) table.old }
    requires new { tables.lookup table.old path.now ≡ None }
    ensures stays { Stays (folder_view (F.held folder.old) (F.reads folder.old) (F.faults folder.old))
        (folder_view (F.held folder.new) (F.reads folder.new) (F.faults folder.new)) }
    ensures answers { Answers (λ given. probed given table.old path.now)
        (folder_view (F.held folder.old) (F.reads folder.old) (F.faults folder.old))
        (folder_view (F.held folder.new) (F.reads folder.new) (F.faults folder.new)) table.old table.new result }
{
    match folder.read(alloc, path, MOST_BYTES) {
        Ok(Fetched::Absent) => {
            table.add_absent(alloc, path)?;
            Ok(None)
        }
        Ok(Fetched::TooLong) => Err(PackFault::TooLong(Text::of(alloc, path)?)),
        Ok(Fetched::Bytes(bytes)) => register(alloc, table, path, bytes),
        Err(FolderFault::NoMemory) => Err(PackFault::NoMemory),
        Err(FolderFault::Failed) => Err(PackFault::FolderFailed(Text::of(alloc, path)?)),
    }
}

// The number of the file at a path, where there is one: by an earlier read of it, or else by a read.
fn probe<F: Folder>(
    alloc: Global,
    folder: &mut F,
    table: &mut ModuleTable,
    path: &str,
) -> Result<Option<u32>, PackFault>
    requires sound { IsSound table.old }
    requires saw { Saw (F.held folder.old) table.old }
    ensures stays { Stays (folder_view (F.held folder.old) (F.reads folder.old) (F.faults folder.old))
        (folder_view (F.held folder.new) (F.reads folder.new) (F.faults folder.new)) }
    ensures answers { Answers (λ given. probed given table.old path.now)
        (folder_view (F.held folder.old) (F.reads folder.old) (F.faults folder.old))
        (folder_view (F.held folder.new) (F.reads folder.new) (F.faults folder.new)) table.old table.new result }
{
    match lookup(table.probes.as_slice(), path) {
        Some(file) => Ok(file),
        None => read_candidate(alloc, folder, table, path),
    }
}

// The last of the candidates.
fn last_candidate(alloc: Global, candidates: &[Text]) -> Result<Text, NoMemory>
    requires { 0 < length candidates.now }
    ensures { IfOk result (λ path. path ≡ spec.last_candidate candidates.now) }
{
    candidates[candidates.len() - 1].copy(alloc)
}

/// The number of the first file that is at one of the candidates, which are tried in order.
pub fn resolve<F: Folder>(
    alloc: Global,
    folder: &mut F,
    table: &mut ModuleTable,
    candidates: &[Text],
) -> Result<u32, PackFault>
    requires some { 0 < length candidates.now }
    requires sound { IsSound table.old }
    requires saw { Saw (F.held folder.old) table.old }
    ensures stays { Stays (folder_view (F.held folder.old) (F.reads folder.old) (F.faults folder.old))
        (folder_view (F.held folder.new) (F.reads folder.new) (F.faults folder.new)) }
    ensures answers { Answers (λ given. resolved given candidates.now table.old)
        (folder_view (F.held folder.old) (F.reads folder.old) (F.faults folder.old))
        (folder_view (F.held folder.new) (F.reads folder.new) (F.faults folder.new)) table.old table.new result }
{
    for path in candidates {
        if let Some(file) = probe(alloc, folder, table, path.as_str())? {
            return Ok(file);
        }
    }
    Err(PackFault::NoFile(last_candidate(alloc, candidates)?))
}
