//! The paths that a walk has asked, and the files that it has found.
ghost use Rattle.std.specs.Prelude.{◌≡◌, ◌<◌, length, IfOk, OnOk};
ghost use Rattle.mdg_pack.specs.ModuleTable.{empty_table, lookup_in, with_absent, with_file};

use mdg_base::{Items, NoMemory, Text};
use std::alloc::Global;

/// A path that was asked, and the number of the file there; none where it was absent.
#[derive(Debug, Drop)]
pub struct Probe {
    pub path: Text,
    pub file: Option<u32>,
}

/// A file that was found: its path and all its bytes.
#[derive(Debug, Drop)]
pub struct SourceFile {
    pub path: Text,
    pub bytes: Items<u8>,
}

/// The paths that were asked, in order, and the files, by their numbers.
#[derive(Debug, Drop)]
pub struct ModuleTable {
    pub probes: Items<Probe>,
    pub files: Items<SourceFile>,
}

/// What was found at a path, where it was asked.
pub fn lookup(probes: &[Probe], path: &str) -> Option<Option<u32>>
    ensures { result ≡ lookup_in probes.now path.now }
{
    for one in probes {
        if path == one.path.as_str() {
            return Some(one.file);
        }
    }
    None
}

impl ModuleTable {
    /// Nothing was asked.
    pub fn create(alloc: Global) -> ModuleTable
        ensures { result ≡ empty_table }
    {
        ModuleTable {
            probes: Items::create(alloc),
            files: Items::create(alloc),
        }
    }

    /// The path was asked and is absent.
    pub fn add_absent(&mut self, alloc: Global, path: &str) -> Result<(), NoMemory>
        ensures { OnOk result (self.new ≡ with_absent self.old path.now) }
    {
        let path = Text::of(alloc, path)?;
        self.probes.push(Probe { path, file: None })
    }

    /// The path was asked and has the next file: its number.
    pub fn add_file(&mut self, alloc: Global, path: &str, bytes: Items<u8>) -> Result<u32, NoMemory>
        requires { length self.old.files < 256 }
        ensures number { IfOk result (λ number. number ≡ length self.old.files) }
        ensures table { OnOk result (self.new ≡ with_file self.old path.now bytes) }
    {
        let number = self.files.as_slice().len() as u32;
        let asked = Text::of(alloc, path)?;
        let path = Text::of(alloc, path)?;
        self.probes.push(Probe {
            path: asked,
            file: Some(number),
        })?;
        self.files.push(SourceFile { path, bytes })?;
        Ok(number)
    }
}
