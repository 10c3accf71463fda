//! Which code has a layout.
ghost use Rattle.std.specs.Prelude.{◌≡◌};
ghost use Rattle.mdg_code.specs.Validity.{IsValid};
ghost use Rattle.mdg_site.specs.Answers.{IsAnswer};

use crate::build::tables;
use crate::count::{node_count, word_count};
use crate::numbering::Layout;
use crate::refusal::SiteRefusal;
use mdg_code::Code;
use std::alloc::Global;

const NODE_LIMIT: u64 = 16_384;

const WORD_LIMIT: u64 = 134_217_728;

/// The layout of valid code. It is refused exactly where the code has more than 16,384 nodes, or, where it
/// hasn't, more than 134,217,728 words in all rows; each refusal tells the whole count.
pub fn layout(alloc: Global, code: &Code) -> Result<Layout, SiteRefusal>
    requires valid { IsValid code.now }
    ensures { IsAnswer code.now result }
{
    let nodes = node_count(code);
    if nodes > NODE_LIMIT {
        return Err(SiteRefusal::TooManyNodes(nodes));
    }
    let words = word_count(code, nodes);
    if words > WORD_LIMIT {
        return Err(SiteRefusal::TooManyWords(words));
    }
    Ok(Layout::with_tables(alloc, tables(alloc, code, nodes)?)?)
}
