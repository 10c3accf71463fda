//! The edges of the graph along which flows go.
ghost use Rattle.std.specs.Prelude.{◌≡◌, IfOk};
ghost use Rattle.std.specs.List.{filter_map};
ghost use Rattle.mdg_scan.specs.Finding.{property_edge, turned_edge};

use crate::first::gather::push_some;
use crate::first::{Edge, Fact, Row};
use mdg_base::NoMemory;
use std::alloc::Global;

// The edge from a node to what its property holds.
fn property_edge(fact: Fact) -> Option<Edge>
    ensures { result ≡ property_edge fact }
{
    match fact.row {
        Row::Field(from, _) => Some(Edge {
            from,
            to: fact.node,
        }),
        _ => None,
    }
}

// The edge from a version or a computed node back to what it comes from.
fn turned_edge(fact: Fact) -> Option<Edge>
    ensures { result ≡ turned_edge fact }
{
    match fact.row {
        Row::Newer(to) | Row::Dep(to) => Some(Edge {
            from: fact.node,
            to,
        }),
        _ => None,
    }
}

/// The property edges among the facts.
pub fn property_edges(alloc: Global, facts: &[Fact]) -> Result<Vec<Edge>, NoMemory>
    ensures { IfOk result (λ edges. edges.items ≡ filter_map property_edge facts.now) }
{
    let mut edges = Vec::new(alloc);
    for fact in facts {
        push_some(&mut edges, property_edge(*fact))?;
    }
    Ok(edges)
}

/// The edges of versions and dependence among the facts, each turned round.
pub fn turned_edges(alloc: Global, facts: &[Fact]) -> Result<Vec<Edge>, NoMemory>
    ensures { IfOk result (λ edges. edges.items ≡ filter_map turned_edge facts.now) }
{
    let mut edges = Vec::new(alloc);
    for fact in facts {
        push_some(&mut edges, turned_edge(*fact))?;
    }
    Ok(edges)
}
