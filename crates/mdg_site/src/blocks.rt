//! Things in blocks, one block after another.
ghost use Rattle.std.specs.Prelude.{◌≡◌, ℕ, ◌^◌, ◌<◌, IfOk};
ghost use Rattle.mdg_site.specs.Answers.{carried};
ghost use Rattle.mdg_site.specs.Blocks.{sum_below};
ghost use Rattle.mdg_site.specs.Tables.{AreStarts};

use mdg_base::NoMemory;
use std::alloc::Global;

/// Things in blocks.
pub trait Blocks {
    /// How many blocks there are.
    ghost blocks: { Self → ℕ };

    /// How many things each block has.
    ghost size_of: { Self → ℕ → ℕ };

    fn count(&self) -> usize
        ensures { result ≡ blocks self.now };

    fn size(&self, block: usize) -> u64
        requires { block < blocks self.now }
        ensures { result ≡ size_of self.now block };
}

/// How many things all blocks have, at most 2^64 - 1.
pub fn total<B: Blocks>(blocks: &B) -> u64
    ensures { result ≡ carried (sum_below (B.size_of blocks.now) (B.blocks blocks.now)) }
{
    let mut total: u64 = 0;
    for block in 0..blocks.count() {
        total = total.saturating_add(blocks.size(block));
    }
    total
}

/// Where each block begins among all things, and where the last one ends.
pub fn starts<B: Blocks>(alloc: Global, blocks: &B) -> Result<Vec<u32>, NoMemory>
    requires { sum_below (B.size_of blocks.now) (B.blocks blocks.now) < 2 ^ 32 }
    ensures { IfOk result (λ t. AreStarts (B.size_of blocks.now) (B.blocks blocks.now) t.items) }
{
    let mut starts = Vec::new(alloc);
    let mut end: u64 = 0;
    starts.push(0)?;
    for block in 0..blocks.count() {
        end += blocks.size(block);
        starts.push(end as u32)?;
    }
    Ok(starts)
}
