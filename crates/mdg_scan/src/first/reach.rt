//! What walks along edges of the graph reach.
ghost use Rattle.std.specs.Prelude.{◌↔◌, IfOk, OnOk, Contains};
ghost use Rattle.mdg_base.specs.declared.node_name.NodeName.{NodeName};
ghost use Rattle.mdg_scan.specs.declared.first.reach.Edge.{Edge};
ghost use Rattle.mdg_scan.specs.Reaching.{Follows, Spreads};
ghost use Rattle.mdg_scan.specs.Walks.{IsReached, Leads};

use mdg_base::{NoMemory, NodeName};
use std::alloc::Global;

/// An edge from a node to a node.
#[derive(Clone, Copy, Debug, PartialEq, Eq)]
pub struct Edge {
    pub from: NodeName,
    pub to: NodeName,
}

// Adds what the edge leads to, where its origin was found.
fn follow(edges: &[Edge], edge: Edge, found: &mut Vec<NodeName>) -> Result<(), NoMemory>
    requires { Contains edges.now edge }
    ensures spreads { Spreads edges.now found.old.items found.new.items }
    ensures follows { OnOk result (Follows found.old.items found.new.items edge) }
{
    if !found.contains(&edge.from) {
        return Ok(());
    }
    if found.contains(&edge.to) {
        return Ok(());
    }
    found.push(edge.to)?;
    Ok(())
}

// Adds what each edge leads to from the nodes that were found.
fn spread(edges: &[Edge], found: &mut Vec<NodeName>) -> Result<(), NoMemory>
    ensures spreads { Spreads edges.now found.old.items found.new.items }
    ensures follows { OnOk result ((edge : Edge) → Contains edges.now edge → Follows found.old.items found.new.items edge) }
{
    for edge in edges {
        follow(edges, *edge, found)?;
    }
    Ok(())
}

/// The nodes to which a walk of no edge or more leads from one of the starts, in the order in which they are found.
pub fn reached(
    alloc: Global,
    edges: &[Edge],
    starts: &[NodeName],
) -> Result<Vec<NodeName>, NoMemory>
    ensures { IfOk result (λ found. (n : NodeName) → Contains found.items n ↔ IsReached (Leads edges.now) starts.now n) }
{
    let mut found = Vec::from_slice(alloc, starts)?;
    loop {
        let before = found.len();
        spread(edges, &mut found)?;
        if found.len() == before {
            return Ok(found);
        }
    }
}
