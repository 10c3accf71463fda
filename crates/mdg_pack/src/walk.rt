//! The walk of a package.
ghost use Rattle.std.specs.Prelude.{◌≡◌, ◌≤◌, ◌<◌, length, IfOk, IfSome, None, Err};
ghost use Rattle.mdg_base.specs.Memory.{IsUnlessMemory};
ghost use Rattle.mdg_pack.specs.Answers.{HasOneOutcome, HasSomeOutcome, IsDecided, IsSomeWalk, IsWalked};
ghost use Rattle.mdg_pack.specs.Effects.{IsSound, Saw, Stays, folder_view};
ghost use Rattle.mdg_pack.specs.PackageFiles.{IsPackage};
ghost use Rattle.mdg_pack.specs.Paths.{FilePath};
ghost use Rattle.mdg_pack.specs.Walk.{Outcome, Walk};
ghost use Rattle.mdg_pack.specs.WalkAnswers.{EntryAnswer, GatherAnswer, LoadAllAnswer, LoadFromEntryAnswer, LoadNextAnswer};
ghost use Rattle.mdg_pack.specs.WalkAnswers.{LoadWithManifestAnswer};
ghost use Rattle.mdg_port.specs.Causes.{Rose, Stood};

use crate::PackFault;
use crate::manifest::{entry_of_manifest, entry_without_manifest};
use crate::module_resolution::{MOST_BYTES, resolve};
use crate::module_table::ModuleTable;
use crate::require_goals::resolve_requires;
use crate::source::load_file;
use mdg_base::{Items, Text};
use mdg_port::{Fetched, Folder, FolderFault};
use mdg_profile::Profile;
use mdg_scope::{Bound, Require};
use std::alloc::Global;

const MANIFEST: &str = "package.json";

/// The files of a package, by their numbers. File 0 is the entry, and each relative require has a file as its goal.
#[derive(Drop)]
pub struct Package {
    pub files: Items<Bound>,
}

// The file with the goals of its requires.
fn with_required(file: Bound, required: Items<Require>) -> Bound
    ensures { result ≡ record file { required = required } }
{
    let Bound {
        path,
        tree,
        functions,
        required: _,
    } = file;
    Bound {
        path,
        tree,
        functions,
        required,
    }
}

// The file with a number: it is tested, and then its requires are resolved.
fn load_next<F: Folder>(
    alloc: Global,
    folder: &mut F,
    profile: &Profile,
    table: &mut ModuleTable,
    number: usize,
) -> Result<Bound, PackFault>
    requires sound { IsSound table.old }
    requires saw { Saw (F.held folder.old) table.old }
    requires inside { number < length table.old.files }
    ensures stays { Stays (folder_view (F.held folder.old) (F.reads folder.old) (F.faults folder.old))
        (folder_view (F.held folder.new) (F.reads folder.new) (F.faults folder.new)) }
    ensures answers { LoadNextAnswer profile.now number
        (folder_view (F.held folder.old) (F.reads folder.old) (F.faults folder.old))
        (folder_view (F.held folder.new) (F.reads folder.new) (F.faults folder.new)) table.old table.new result }
{
    let file = &table.files.as_slice()[number];
    let bound = load_file(alloc, file.path.as_str(), file.bytes.as_slice(), profile)?;
    let required = resolve_requires(
        alloc,
        folder,
        table,
        bound.path.as_str(),
        bound.required.as_slice(),
    )?;
    Ok(with_required(bound, required))
}

// The files of the table, and those that they require, by their numbers.
fn load_all<F: Folder>(
    alloc: Global,
    folder: &mut F,
    profile: &Profile,
    table: &mut ModuleTable,
) -> Result<Items<Bound>, PackFault>
    requires sound { IsSound table.old }
    requires saw { Saw (F.held folder.old) table.old }
    ensures stays { Stays (folder_view (F.held folder.old) (F.reads folder.old) (F.faults folder.old))
        (folder_view (F.held folder.new) (F.reads folder.new) (F.faults folder.new)) }
    ensures answers { LoadAllAnswer profile.now
        (folder_view (F.held folder.old) (F.reads folder.old) (F.faults folder.old))
        (folder_view (F.held folder.new) (F.reads folder.new) (F.faults folder.new)) table.old result }
{
    let mut done = Items::create(alloc);
    while done.as_slice().len() < table.files.as_slice().len() {
        let number = done.as_slice().len();
        done.push(load_next(alloc, folder, profile, table, number)?)?;
    }
    Ok(done)
}

// The files from the entry on.
fn load_from_entry<F: Folder>(
    alloc: Global,
    folder: &mut F,
    profile: &Profile,
    entry: &[Text],
) -> Result<Items<Bound>, PackFault>
    requires { 0 < length entry.now }
    ensures stays { Stays (folder_view (F.held folder.old) (F.reads folder.old) (F.faults folder.old))
        (folder_view (F.held folder.new) (F.reads folder.new) (F.faults folder.new)) }
    ensures answers { LoadFromEntryAnswer profile.now entry.now
        (folder_view (F.held folder.old) (F.reads folder.old) (F.faults folder.old))
        (folder_view (F.held folder.new) (F.reads folder.new) (F.faults folder.new)) result }
{
    let mut table = ModuleTable::create(alloc);
    resolve(alloc, folder, &mut table, entry)?;
    load_all(alloc, folder, profile, &mut table)
}

// The candidates for the entry, by what a read of the manifest gave.
fn entry_candidates(alloc: Global, read: Fetched) -> Result<Items<Text>, PackFault>
    ensures { EntryAnswer read result }
{
    match read {
        Fetched::Absent => Ok(entry_without_manifest(alloc)?),
        Fetched::TooLong => Err(PackFault::TooLong(Text::of(alloc, MANIFEST)?)),
        Fetched::Bytes(bytes) => entry_of_manifest(alloc, bytes.as_slice()),
    }
}

// The package by what a read of the manifest gave.
fn load_with_manifest<F: Folder>(
    alloc: Global,
    folder: &mut F,
    profile: &Profile,
    read: Fetched,
) -> Result<Package, PackFault>
    ensures stays { Stays (folder_view (F.held folder.old) (F.reads folder.old) (F.faults folder.old))
        (folder_view (F.held folder.new) (F.reads folder.new) (F.faults folder.new)) }
    ensures answers { LoadWithManifestAnswer profile.now read
        (folder_view (F.held folder.old) (F.reads folder.old) (F.faults folder.old))
        (folder_view (F.held folder.new) (F.reads folder.new) (F.faults folder.new)) result }
{
    let entry = entry_candidates(alloc, read)?;
    let files = load_from_entry(alloc, folder, profile, entry.as_slice())?;
    Ok(Package { files })
}

fn gather_package<F: Folder>(
    alloc: Global,
    folder: &mut F,
    profile: &Profile,
) -> Result<Package, PackFault>
    ensures stays { Stays (folder_view (F.held folder.old) (F.reads folder.old) (F.faults folder.old))
        (folder_view (F.held folder.new) (F.reads folder.new) (F.faults folder.new)) }
    ensures answers { GatherAnswer profile.now
        (folder_view (F.held folder.old) (F.reads folder.old) (F.faults folder.old))
        (folder_view (F.held folder.new) (F.reads folder.new) (F.faults folder.new)) result }
{
    match folder.read(alloc, MANIFEST, MOST_BYTES) {
        Ok(read) => load_with_manifest(alloc, folder, profile, read),
        Err(FolderFault::NoMemory) => Err(PackFault::NoMemory),
        Err(FolderFault::Failed) => Err(PackFault::FolderFailed(Text::of(alloc, MANIFEST)?)),
    }
}

/// The package in a folder, from its `package.json` on (docs/WALK.md has the rule).
///
/// `package.json` names the entry, or it is `index.js`. Files are numbered as they are found. Each is tested, its text
/// (ECMA-262 5.1, 7), its tree (11 to 14) and its names, and then its relative requires are resolved in their order,
/// each by its candidates. A read asks for at most 1,048,576 bytes.
///
/// Each refusal but `NoMemory` comes exactly where the walk has it first. A read that fails ends the walk with its
/// path, as `FolderFailed`, which comes only where the folder's count of faults rose. Of the reads of a folder that
/// tells what it holds the number is proved, not the list; tests show the list.
pub fn gather<F: Folder>(
    alloc: Global,
    folder: &mut F,
    profile: &Profile,
) -> Result<Package, PackFault>
    ensures same { F.held folder.new ≡ F.held folder.old }
    ensures later { F.faults folder.old ≤ F.faults folder.new }

    // The answer is that of the walk of what the folder holds, in which the last read fails if the answer is that one
    // failed. As many reads were made as the walk asks paths.
    ensures walked { IfSome (F.held folder.old) (λ held. IsDecided result
        → IsWalked held profile.now (F.reads folder.old) (F.reads folder.new) result) }

    // Of a folder that tells nothing it is that of what the reads gave.
    ensures some_walk { IsDecided result → IsSomeWalk profile.now result }

    // Each file is what its path and tree bind, and each relative require has a file of the package.
    ensures files { IfOk result (IsPackage profile.now) }

    // What the walk has is answered, where no read failed.
    ensures answered { IfSome (F.held folder.old) (λ held. (outcome : Outcome) → Walk held profile.now None outcome
        → Stood (F.faults folder.old) (F.faults folder.new) → IsUnlessMemory PackFault.NoMemory result outcome.result) }

    ensures fault { (path : FilePath) → result ≡ Err (PackFault.FolderFailed path)
        → Rose (F.faults folder.old) (F.faults folder.new) }
{
    gather_package(alloc, folder, profile)
}

/// The law of the walk: whichever read fails, if one does, a folder that tells what it holds has one outcome under a
/// profile, and no other.
pub fn law_one_walk()
    ensures at_most_one { HasOneOutcome }
    ensures at_least_one { HasSomeOutcome }
{}
