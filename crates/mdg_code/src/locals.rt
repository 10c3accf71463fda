//! How many locals there are.
ghost use Rattle.std.specs.Prelude.{◌≡◌, ◌^◌, ◌<◌, ◌≤◌, Some, length};
ghost use Rattle.mdg_code.specs.Locals.{locals_at, locals_before, row_locals_before, sites_before};
ghost use Rattle.mdg_code.specs.Validity.{IsValid};

use crate::sites::function_at;
use crate::{Code, FunctionRow};
use mdg_base::Site;

/// How many locals there are at the site: those of the function in which it lies.
pub fn locals_at(code: &Code, site: Site) -> u32
    requires valid { IsValid code.now }
    requires in_range { site.0 < length code.now.lines }
    ensures { locals_at code.now site.0 ≡ Some result }
{
    code.functions.as_slice()[function_at(code, site).0 as usize].locals
}

fn sites_before(site: Site, row: &FunctionRow) -> u64
    ensures is { result ≡ sites_before site.0 row.now }
    ensures within { result < 2 ^ 32 }
{
    u64::from(site.0)
        .min(u64::from(row.end.0) + 1)
        .saturating_sub(u64::from(row.entry.0))
}

fn locals_in(row: &FunctionRow) -> u64
    ensures is { result ≡ row.now.locals }
    ensures within { result < 2 ^ 32 }
{
    let locals = row.locals;
    u64::from(locals)
}

fn row_locals_before(site: Site, row: &FunctionRow) -> u64
    ensures is { result ≡ row_locals_before site.0 row.now }
    ensures small { row.now.locals < 2 ^ 32 }
{
    sites_before(site, row) * locals_in(row)
}

/// How many locals there are at all sites before the site, each counted once for each site. At the number
/// of sites it is the count of all. It takes time in step with the functions.
pub fn locals_before(code: &Code, site: Site) -> u64
    requires valid { IsValid code.now }
    requires in_range { site.0 ≤ length code.now.lines }
    ensures { result ≡ locals_before code.now site.0 }
{
    let mut total: u64 = 0;
    for row in code.functions.as_slice() {
        total += row_locals_before(site, row);
    }
    total
}
