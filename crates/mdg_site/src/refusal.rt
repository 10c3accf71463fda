//! Why code has no layout.

use mdg_base::NoMemory;
use thiserror::Error;

/// Why `layout` has no layout to give.
#[derive(Clone, Copy, Debug, PartialEq, Eq, Error)]
pub enum SiteRefusal {
    /// There are more than 16,384 nodes: so many.
    #[error("{0} nodes are too many")]
    TooManyNodes(u64),

    /// There are no more than 16,384 nodes, but all rows have more than 134,217,728 words: so many. A count
    /// of 2^64 or more is told as 2^64 - 1.
    #[error("{0} words are too many")]
    TooManyWords(u64),

    /// Memory was refused.
    #[error("out of memory")]
    NoMemory,
}

impl From<NoMemory> for SiteRefusal {
    ghost use Rattle.std.specs.Prelude.{◌≡◌};
    ghost use Rattle.mdg_site.specs.declared.refusal.SiteRefusal.TheVariants as refusal;

    ghost from_gives = { λ _ e. e ≡ refusal.NoMemory };

    fn from(_: NoMemory) -> SiteRefusal {
        SiteRefusal::NoMemory
    }
}
