//! How the tables of a layout are made.
ghost use Rattle.std.specs.Prelude.{◌≡◌, ◌≤◌, IfOk, length};
ghost use Rattle.mdg_code.specs.Ranges.{IsCounted};
ghost use Rattle.mdg_site.specs.Answers.{node_limit, word_limit};
ghost use Rattle.mdg_site.specs.Laid.{laid};
ghost use Rattle.mdg_site.specs.Nodes.{node_count, object_count};
ghost use Rattle.mdg_site.specs.Rows.{word_count};
ghost use Rattle.mdg_site.specs.Tables.{AreNodeNames, AreObjectNames, AreShapes};

use crate::blocks::starts;
use crate::count::kind_sizes;
use crate::shape::Shape;
use crate::sizes::{Known, Listed, Locals, Nodes, Objects, Parameters, shape_at};
use crate::tables::Tables;
use mdg_base::{NoMemory, NodeName};
use mdg_code::Code;
use std::alloc::Global;
use std::snapshot::Snapshot;

fn shapes(alloc: Global, code: &Code) -> Result<Vec<Shape>, NoMemory>
    ensures { IfOk result (λ t. AreShapes (laid code.now) (length code.now.lines) t.items) }
{
    let mut shapes = Vec::new(alloc);
    for site in 0..code.lines.as_slice().len() {
        shapes.push(shape_at(code, site))?;
    }
    Ok(shapes)
}

/// The tables of code that has no more nodes and words than a layout may have.
pub fn tables(alloc: Global, code: &Code, nodes: u64) -> Result<Tables, NoMemory>
    requires counted { IsCounted code.now }
    requires nodes_are { nodes ≡ node_count (laid code.now) }
    requires few { nodes ≤ node_limit }
    requires few_words { word_count (laid code.now) ≤ word_limit }
    ensures { IfOk result (λ t. t ≡ laid code.now) }
{
    let sizes = kind_sizes(code, nodes);
    Ok(Tables {
        code: Snapshot::of(code),
        functions: code.functions.as_slice().len() as u32,
        cells: code.cells.as_slice().len() as u32,
        shared: code.shared.as_slice().len() as u32,
        names: code.columns.as_slice().len() as u32,
        sources: starts(alloc, &Parameters { code })?,
        nodes: starts(alloc, &Nodes { code })?,
        objects: starts(alloc, &Objects { code })?,
        locals: starts(alloc, &Locals { code })?,
        known: starts(alloc, &Known { code })?,
        starts: starts(alloc, &Listed { sizes: &sizes })?,
        shapes: shapes(alloc, code)?,
    })
}

/// The names of all nodes, by number.
pub fn node_names(alloc: Global, tables: &Tables) -> Result<Vec<NodeName>, NoMemory>
    ensures { IfOk result (λ t. AreNodeNames tables.now (node_count tables.now) t.items) }
{
    let mut names = Vec::new(alloc);
    for number in 0..tables.node_count() {
        names.push(tables.node_at(number))?;
    }
    Ok(names)
}

/// The names of the nodes that stand for objects, by their number among these.
pub fn object_names(alloc: Global, tables: &Tables) -> Result<Vec<NodeName>, NoMemory>
    ensures { IfOk result (λ t. AreObjectNames tables.now (object_count tables.now) t.items) }
{
    let mut names = Vec::new(alloc);
    for number in 0..tables.object_count() {
        names.push(tables.object_at(number))?;
    }
    Ok(names)
}
