//! Numbers of things in blocks, by the table of where each block begins.
ghost use Rattle.std.specs.Prelude.{◌≡◌, ℕ, ◌+◌, ◌*◌, ◌^◌, ◌<◌, ◌≤◌, IfSome, Some, length, slice_index};
ghost use Rattle.mdg_site.specs.Blocks.{below, grid, shift, slot, slot_at};
ghost use Rattle.mdg_site.specs.Tables.{HasNumber, IsTable};

/// The number of thing x of the block, where there is such a thing.
pub fn slot(table: &[u32], block: u32, x: u32) -> Option<u32>
    ensures { (f : ℕ → ℕ) (n : ℕ) → IsTable f n table.now → result ≡ slot f block x }
{
    let at = block as usize;
    if at + 1 < table.len() {
        let first = table[at];
        let next = table[at + 1];
        if u64::from(first) + u64::from(x) < u64::from(next) {
            Some(first + x)
        } else {
            None
        }
    } else {
        None
    }
}

/// The number of the thing of the block, where there is one.
pub fn slot_at(table: &[u32], block: u32, x: Option<u32>) -> Option<u32>
    ensures { (f : ℕ → ℕ) (n : ℕ) → IsTable f n table.now → result ≡ slot_at f block x }
{
    match x {
        Some(x) => slot(table, block, x),
        None => None,
    }
}

/// The block in which the thing of this number stands.
fn block_of(table: &[u32], number: u32) -> usize
    requires has { HasNumber table.now number }
    ensures in_range { result + 1 < length table.now }
    ensures begins { slice_index table.now result ≤ number }
    ensures ends { number < slice_index table.now (result + 1) }
{
    let mut low = 0;
    let mut high = table.len() - 1;
    while high - low > 1 {
        let middle = low + (high - low) / 2;
        if table[middle] <= number {
            low = middle;
        } else {
            high = middle;
        }
    }
    low
}

/// The block in which the thing of this number stands, and its place in it.
pub fn place_of(table: &[u32], number: u32) -> (u32, u32)
    requires has { HasNumber table.now number }
    requires short { length table.now ≤ 2 ^ 32 }
    ensures { (f : ℕ → ℕ) (n : ℕ) → IsTable f n table.now → slot f result.0 result.1 ≡ Some number }
{
    let block = block_of(table, number);
    let first = table[block];
    (block as u32, number - first)
}

/// One of so many things.
pub fn below(count: u32, x: u32) -> Option<u32>
    ensures { result ≡ below count x }
{
    if x < count { Some(x) } else { None }
}

/// So many numbers further.
pub fn shift(start: u32, x: Option<u32>) -> Option<u32>
    requires fits { IfSome x (λ x. start + x < 2 ^ 32) }
    ensures { result ≡ shift start x }
{
    match x {
        Some(x) => Some(start + x),
        None => None,
    }
}

fn grid_place(width: u64, row: u32, x: u32) -> u32
    requires fits { row * width + width < 2 ^ 32 }
    requires within { x < width }
    ensures { result ≡ row * width + x }
{
    (u64::from(row) * width + u64::from(x)) as u32
}

/// The place in a table whose rows have so many places.
pub fn grid(width: u64, row: Option<u32>, x: u32) -> Option<u32>
    requires fits { IfSome row (λ i. i * width + width < 2 ^ 32) }
    ensures { result ≡ grid width row x }
{
    match row {
        Some(row) => {
            if u64::from(x) < width {
                Some(grid_place(width, row, x))
            } else {
                None
            }
        }
        None => None,
    }
}
