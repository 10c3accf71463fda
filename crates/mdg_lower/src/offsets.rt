//! Tables of offsets, each offset once, in the order in which they came.

ghost use Rattle.std.specs.Prelude.{◌≡◌, [], OnOk, length};
ghost use Rattle.mdg_lower.specs.Offsets.{add_offset, place_of_offset};

use indexmap::IndexSet;
use mdg_base::NoMemory;
use std::alloc::Global;
use std::marker::Model;

/// A set of offsets. Contracts see it as the list of them.
#[derive(Drop)]
pub struct OffsetTable {
    offsets: IndexSet<u32>,
}

impl Model for OffsetTable {
    ghost use Rattle.std.specs.Prelude.{List, ℕ};

    ghost Value = { List ℕ };

    ghost view = { λ t. t.offsets.keys };
}

impl OffsetTable {
    /// A table of no offsets.
    pub fn create(alloc: Global) -> OffsetTable
        ensures { result ≡ [] }
    {
        OffsetTable {
            offsets: IndexSet::new(alloc),
        }
    }

    /// How many there are.
    pub fn len(&self) -> usize
        ensures { result ≡ length self.now }
    {
        self.offsets.len()
    }

    /// The number of the offset among the others, from 0.
    pub fn place(&self, offset: u32) -> Option<usize>
        ensures { result ≡ place_of_offset self.now offset }
    {
        self.offsets.get_index_of(&offset)
    }

    /// Puts the offset after the others, unless it is there.
    pub fn add(&mut self, offset: u32) -> Result<(), NoMemory>
        ensures { OnOk result (self.new ≡ add_offset self.old offset) }
    {
        self.offsets.insert(offset)?;
        Ok(())
    }
}
