//! How many nodes, rows and words a layout would have.
ghost use Rattle.std.specs.Prelude.{◌≡◌, ◌≤◌, ◌<◌, ◌+◌, ◌*◌, ◌/◌, max};
ghost use Rattle.mdg_code.specs.Ranges.{IsCounted};
ghost use Rattle.mdg_site.specs.Answers.{carried, node_limit};
ghost use Rattle.mdg_site.specs.Counts.{carried_sizes};
ghost use Rattle.mdg_site.specs.Laid.{laid};
ghost use Rattle.mdg_site.specs.Nodes.{early_count, node_count, object_count};
ghost use Rattle.mdg_site.specs.Rows.{column_count, row_count, word_count};

use crate::blocks::total;
use crate::sizes::{Known, Listed, Locals, Nodes, Objects, Parameters};
use mdg_code::Code;

/// How many nodes stand before those of the sites.
fn early_count(code: &Code) -> u64
    ensures { result ≡ carried (early_count (laid code.now)) }
{
    total(&Parameters { code }).saturating_add(code.shared.as_slice().len() as u64)
}

/// How many nodes there are, at most 2^64 - 1.
pub fn node_count(code: &Code) -> u64
    ensures { result ≡ carried (node_count (laid code.now)) }
{
    early_count(code).saturating_add(total(&Nodes { code }))
}

/// How many of them stand for objects, at most 2^64 - 1.
fn object_count(code: &Code) -> u64
    ensures { result ≡ carried (object_count (laid code.now)) }
{
    early_count(code).saturating_add(total(&Objects { code }))
}

fn field_count(code: &Code) -> u64
    requires counted { IsCounted code.now }
    requires few { node_count (laid code.now) ≤ node_limit }
    ensures { result ≡ object_count (laid code.now) * column_count (laid code.now) }
{
    object_count(code) * (code.columns.as_slice().len() as u64 + 1)
}

/// How many rows of each kind there are. Those of locals are told as at most 2^64 - 1.
pub fn kind_sizes(code: &Code, nodes: u64) -> [u64; 12]
    requires counted { IsCounted code.now }
    requires nodes_are { nodes ≡ node_count (laid code.now) }
    requires few { nodes ≤ node_limit }
    ensures { result ≡ carried_sizes (laid code.now) }
{
    let functions = code.functions.as_slice().len() as u64;
    [
        total(&Locals { code }),
        code.cells.as_slice().len() as u64,
        field_count(code),
        nodes,
        nodes,
        functions,
        total(&Known { code }),
        1,
        functions,
        code.shared.as_slice().len() as u64,
        1,
        1,
    ]
}

fn row_count(code: &Code, nodes: u64) -> u64
    requires counted { IsCounted code.now }
    requires nodes_are { nodes ≡ node_count (laid code.now) }
    requires few { nodes ≤ node_limit }
    ensures { result ≡ carried (row_count (laid code.now)) }
{
    let sizes = kind_sizes(code, nodes);
    total(&Listed { sizes: &sizes })
}

/// How many words of 64 nodes a row has.
pub fn width(nodes: u64) -> u64
    requires few { nodes ≤ node_limit }
    ensures is { result ≡ max 1 ((nodes + 63) / 64) }
    ensures some { 0 < result }
{
    nodes.div_ceil(64).max(1)
}

/// How many words all rows have, at most 2^64 - 1.
pub fn word_count(code: &Code, nodes: u64) -> u64
    requires counted { IsCounted code.now }
    requires nodes_are { nodes ≡ node_count (laid code.now) }
    requires few { nodes ≤ node_limit }
    ensures { result ≡ carried (word_count (laid code.now)) }
{
    row_count(code, nodes).saturating_mul(width(nodes))
}
