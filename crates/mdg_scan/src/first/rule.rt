//! The rules by which facts give facts.
ghost use Rattle.std.specs.Prelude.{◌≡◌, ◌↔◌, List, Some, Contains, IfOk, IfSome, IsTrue, OnOk, map, ◌++◌};
ghost use Rattle.mdg_scan.specs.declared.first.fact.Fact.{Fact};
ghost use Rattle.mdg_scan.specs.declared.first.rule.Rule.{Rule};
ghost use Rattle.mdg_scan.specs.Parts.{IsPart};
ghost use Rattle.mdg_scan.specs.Rules.{In, IsOpen, RuleGives, in_row};
ghost use Rattle.mdg_scan.specs.Steps.{Concludes, ConcludesSome, IsHeld, IsNewer, IsPremise, Lists};

use crate::first::{Fact, Facts, Row};
use mdg_base::{Column, Local, NoMemory, NodeName, Site};
use std::alloc::Global;

/// A rule of the graph. Each kind is a phrase of the table of rules.
#[derive(Clone, Copy, Debug)]
pub enum Rule {
    /// The fact holds.
    Holds(Fact),

    /// Each node of a local before the one statement is in it before the other, for all locals but one.
    Carry {
        from: Site,
        to: Site,
        except: Option<Local>,
    },

    /// Each node of the one row is in the other.
    Into {
        from: Row,
        to: Row,
    },

    /// Where the row has a node, the fact holds.
    Given {
        from: Row,
        fact: Fact,
    },

    /// The node is a newer version of each node of the row.
    MarkNewer {
        from: Row,
        newer: NodeName,
    },

    /// The node is computed from each node of the row.
    MarkDep {
        from: Row,
        computed: NodeName,
    },

    /// What the properties of the row's nodes hold is in the other row.
    Fields {
        from: Row,
        to: Row,
    },

    /// The same of one property.
    Property {
        from: Row,
        column: Column,
        to: Row,
    },

    /// What the properties of the row's nodes hold, but for the one that is replaced, is in the node's properties too.
    TakeOver {
        from: Row,
        into: NodeName,
        replaced: Option<Column>,
    },

    /// Each other local that has a node in common with the object has this node at the later statement.
    Alias {
        from: Site,
        object: Local,
        to: Site,
        newer: NodeName,
    },

    /// Where the two rows have a node in common, the fact holds.
    Meet {
        one: Row,
        other: Row,
        fact: Fact,
    },

    /// The newer versions of a node are where the node is, in the rows that outlive a statement.
    Versions,

    /// The newer versions of a node are where the node is, in the locals before the statement.
    VersionsAt(Site),
}

fn stands(row: Row, node: NodeName) -> Option<Fact>
    ensures { result ≡ Some (in_row row node) }
{
    Some(Fact { row, node })
}

// Where the fact is carried to.
fn carried(from: Site, to: Site, except: Option<Local>, fact: Fact) -> Option<Fact>
    ensures only { IfSome result (Concludes (Rule.Carry from to except) fact) }
    ensures all { (f : Fact) → Concludes (Rule.Carry from to except) fact f → result ≡ Some f }
{
    match fact.row {
        Row::Loc(_, local) if except != Some(local) => stands(Row::Loc(to, local), fact.node),
        _ => None,
    }
}

// What the one property holds.
fn of_property(from: Row, column: Column, to: Row, fact: Fact) -> Option<Fact>
    ensures only { IfSome result (Concludes (Rule.Property from column to) fact) }
    ensures all { (f : Fact) → Concludes (Rule.Property from column to) fact f → result ≡ Some f }
{
    match fact.row {
        Row::Field(_, of) if of == column => stands(to, fact.node),
        _ => None,
    }
}

// The fact of the same property of the node that takes over.
fn taken_over(from: Row, into: NodeName, replaced: Option<Column>, fact: Fact) -> Option<Fact>
    ensures only { IfSome result (Concludes (Rule.TakeOver from into replaced) fact) }
    ensures all { (f : Fact) → Concludes (Rule.TakeOver from into replaced) fact f → result ≡ Some f }
{
    match fact.row {
        Row::Field(_, column) if replaced != Some(column) => {
            stands(Row::Field(into, column), fact.node)
        }
        _ => None,
    }
}

// The node that another local gets.
fn aliased(from: Site, object: Local, to: Site, newer: NodeName, fact: Fact) -> Option<Fact>
    ensures only { IfSome result (Concludes (Rule.Alias from object to newer) fact) }
    ensures all { (f : Fact) → Concludes (Rule.Alias from object to newer) fact f → result ≡ Some f }
{
    match fact.row {
        Row::Loc(_, local) if local != object => stands(Row::Loc(to, local), newer),
        _ => None,
    }
}

// What the rule concludes from a fact that it starts from.
fn conclusion(rule: Rule, fact: Fact) -> Option<Fact>
    ensures only { IfSome result (Concludes rule fact) }
    ensures all { (f : Fact) → Concludes rule fact f → result ≡ Some f }
{
    match rule {
        Rule::Holds(_) | Rule::Versions | Rule::VersionsAt(_) => Some(fact),
        Rule::Carry { from, to, except } => carried(from, to, except, fact),
        Rule::Into { to, .. } | Rule::Fields { to, .. } => stands(to, fact.node),
        Rule::Given { fact: given, .. } | Rule::Meet { fact: given, .. } => Some(given),
        Rule::MarkNewer { newer, .. } => stands(Row::Newer(fact.node), newer),
        Rule::MarkDep { computed, .. } => stands(Row::Dep(fact.node), computed),
        Rule::Property { from, column, to } => of_property(from, column, to, fact),
        Rule::TakeOver {
            from,
            into,
            replaced,
        } => taken_over(from, into, replaced, fact),
        Rule::Alias {
            from,
            object,
            to,
            newer,
        } => aliased(from, object, to, newer, fact),
    }
}

// What the rule concludes from each of these.
fn conclusions(alloc: Global, rule: Rule, premises: &[Fact]) -> Result<Vec<Fact>, NoMemory>
    ensures { IfOk result (λ given. Lists (ConcludesSome rule premises.now) given.items) }
{
    let mut given = Vec::new(alloc);
    for premise in premises {
        if let Some(fact) = conclusion(rule, *premise) {
            given.push(fact)?;
        }
    }
    Ok(given)
}

// What the properties of the row's nodes hold.
fn held(alloc: Global, facts: &Facts, from: Row) -> Result<Vec<Fact>, NoMemory>
    ensures { IfOk result (λ held. Lists (IsHeld from facts.now) held.items) }
{
    let mut held = Vec::new(alloc);
    for fact in facts.row(from) {
        held.extend_from_slice(facts.fields(fact.node))?;
    }
    Ok(held)
}

// Those of these facts whose node stands in the row too.
fn common(alloc: Global, facts: &Facts, part: &[Fact], row: Row) -> Result<Vec<Fact>, NoMemory>
    ensures { IfOk result (λ common. IsPart (λ f. In facts.now row f.node) part.now common.items) }
{
    let mut common = Vec::new(alloc);
    for fact in part {
        let other = Fact {
            row,
            node: fact.node,
        };
        if facts.has(&other) {
            common.push(*fact)?;
        }
    }
    Ok(common)
}

// Whether the newer versions of the row's nodes are followed wherever it is read.
fn is_open(row: Row) -> bool
    ensures { IsTrue result ↔ IsOpen row }
{
    match row {
        Row::Cell(_) | Row::Field(_, _) | Row::Exp | Row::IsFunction(_) | Row::IsShared(_) => true,
        Row::Loc(_, _) | Row::Newer(_) | Row::Dep(_) | Row::Known(_) => false,
    }
}

// The facts of those rows.
fn open_facts(alloc: Global, facts: &[Fact]) -> Result<Vec<Fact>, NoMemory>
    ensures { IfOk result (λ found. IsPart (λ f. IsOpen f.row) facts.now found.items) }
{
    let mut found = Vec::new(alloc);
    for fact in facts {
        if is_open(fact.row) {
            found.push(*fact)?;
        }
    }
    Ok(found)
}

// Appends each node of these facts, in the row.
fn push_moved(given: &mut Vec<Fact>, part: &[Fact], to: Row) -> Result<(), NoMemory>
    ensures { OnOk result (given.new.items ≡ given.old.items ++ map (λ f. in_row to f.node) part.now) }
{
    for fact in part {
        given.push(Fact {
            row: to,
            node: fact.node,
        })?;
    }
    Ok(())
}

// The newer versions of these facts' nodes, in the rows of those nodes.
fn newer_versions(alloc: Global, facts: &Facts, of: &[Fact]) -> Result<Vec<Fact>, NoMemory>
    ensures { IfOk result (λ newer. Lists (IsNewer of.now facts.now) newer.items) }
{
    let mut newer = Vec::new(alloc);
    for fact in of {
        push_moved(&mut newer, facts.row(Row::Newer(fact.node)), fact.row)?;
    }
    Ok(newer)
}

// The facts that the rule starts from.
fn premises(alloc: Global, rule: Rule, facts: &Facts) -> Result<Vec<Fact>, NoMemory>
    ensures { IfOk result (λ premises. Lists (IsPremise rule facts.now) premises.items) }
{
    match rule {
        Rule::Holds(fact) => Ok(Vec::from_slice(alloc, &[fact])?),
        Rule::Carry { from, .. } => Ok(Vec::from_slice(alloc, facts.locals(from))?),
        Rule::Into { from, .. }
        | Rule::Given { from, .. }
        | Rule::MarkNewer { from, .. }
        | Rule::MarkDep { from, .. } => Ok(Vec::from_slice(alloc, facts.row(from))?),
        Rule::Fields { from, .. } | Rule::Property { from, .. } | Rule::TakeOver { from, .. } => {
            held(alloc, facts, from)
        }
        Rule::Alias { from, object, .. } => {
            common(alloc, facts, facts.locals(from), Row::Loc(from, object))
        }
        Rule::Meet { one, other, .. } => common(alloc, facts, facts.row(other), one),
        Rule::Versions => {
            let open = open_facts(alloc, facts.as_slice())?;
            newer_versions(alloc, facts, open.as_slice())
        }
        Rule::VersionsAt(site) => newer_versions(alloc, facts, facts.locals(site)),
    }
}

/// What the rule gives from these facts.
pub fn given(alloc: Global, rule: Rule, facts: &Facts) -> Result<Vec<Fact>, NoMemory>
    ensures { IfOk result (λ given. Lists (RuleGives rule facts.now) given.items) }
{
    let premises = premises(alloc, rule, facts)?;
    conclusions(alloc, rule, premises.as_slice())
}
