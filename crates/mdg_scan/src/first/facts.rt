//! A set of facts that finds the facts of a row, of the locals before a statement, and of a node's properties.
ghost use Rattle.std.specs.Prelude.{◌≡◌, ◌≢◌, [], ◌∷◌, ◌++◌, ◌↔◌, IsTrue, IfOk, OnOk, Contains};
ghost use Rattle.mdg_scan.specs.declared.first.fact.Row.{Row};
ghost use Rattle.mdg_scan.specs.Parts.{IsFieldOf, IsLocalAt, IsPart, filed, first_row, on_shelf, row_cmp};

use crate::first::{Fact, Row};
use mdg_base::{Column, Local, NoMemory, NodeName, Site};
use std::alloc::Global;
use std::collections::BTreeMap;
use std::marker::Model;

/// Facts in the order in which they were added.
#[derive(Drop)]
pub struct Facts {
    list: Vec<Fact>,

    // The facts of each row.
    rows: BTreeMap<Row, Vec<Fact>>,

    // The facts of all rows that differ in the local or the column alone.
    groups: BTreeMap<Row, Vec<Fact>>,
}

impl Model for Facts {
    ghost use Rattle.std.specs.Prelude.{List};
    ghost use Rattle.mdg_scan.specs.declared.first.fact.Fact.{Fact};

    ghost Value = { List Fact };

    ghost use Rattle.mdg_scan.specs.Parts.{IsFiled, first_row};

    ghost view = { λ f. f.list.items };

    ghost invariant = { λ f. IsFiled (λ g. g.row) f.list.items f.rows
        × IsFiled (λ g. first_row g.row) f.list.items f.groups };
}

// The first row of the group: the locals before one statement, or the properties of one node.
fn first_row(row: Row) -> Row
    ensures { result ≡ first_row row }
{
    match row {
        Row::Loc(site, _) => Row::Loc(site, Local(0)),
        Row::Field(node, _) => Row::Field(node, Column(0)),
        other => other,
    }
}

// Puts the fact on the shelf for the key.
fn file<K: Ord + Drop>(
    shelves: &mut BTreeMap<K, Vec<Fact>>,
    at: K,
    fact: Fact,
) -> Result<(), NoMemory>
    ensures { OnOk result ((k : K) → on_shelf K.cmp shelves.new k ≡ filed K.cmp shelves.old at fact k) }
{
    shelves.entry(at)?.or_default().push(fact)?;
    Ok(())
}

// What is on the shelf for the row.
fn shelf(shelves: &BTreeMap<Row, Vec<Fact>>, at: Row) -> &[Fact]
    ensures { result.now ≡ on_shelf row_cmp shelves.now at }
{
    match shelves.get(&at) {
        Some(facts) => facts.as_slice(),
        None => &[],
    }
}

// Whether the fact is one of these.
fn is_among(fact: &Fact, part: &[Fact]) -> bool
    ensures { IsTrue result ↔ Contains part.now fact.now }
{
    part.contains(fact)
}

impl Facts {
    /// No facts yet. It takes no memory, and keeps the allocator.
    pub fn create(alloc: Global) -> Facts
        ensures { result ≡ [] }
    {
        Facts {
            list: Vec::new(alloc),
            rows: BTreeMap::new(alloc),
            groups: BTreeMap::new(alloc),
        }
    }

    /// All facts, in the order in which they were added.
    pub fn as_slice(&self) -> &[Fact]
        ensures { result.now ≡ self.now }
    {
        self.list.as_slice()
    }

    /// The facts of the row.
    pub fn row(&self, row: Row) -> &[Fact]
        ensures { IsPart (λ f. f.row ≡ row) self.now result.now }
    {
        shelf(&self.rows, row)
    }

    /// The facts of all locals before the statement.
    pub fn locals(&self, site: Site) -> &[Fact]
        ensures { IsPart (IsLocalAt site) self.now result.now }
    {
        shelf(&self.groups, Row::Loc(site, Local(0)))
    }

    /// The facts of all properties of the node.
    pub fn fields(&self, node: NodeName) -> &[Fact]
        ensures { IsPart (IsFieldOf node) self.now result.now }
    {
        shelf(&self.groups, Row::Field(node, Column(0)))
    }

    /// Whether the fact is among them.
    pub fn has(&self, fact: &Fact) -> bool
        ensures { IsTrue result ↔ Contains self.now fact.now }
    {
        is_among(fact, self.row(fact.row))
    }

    /// These facts and one more.
    pub fn with(self, fact: Fact) -> Result<Facts, NoMemory>
        ensures { IfOk result (λ facts. facts ≡ self ++ fact ∷ []) }
    {
        let Facts {
            mut list,
            mut rows,
            mut groups,
        } = self;
        list.push(fact)?;
        file(&mut rows, fact.row, fact)?;
        file(&mut groups, first_row(fact.row), fact)?;
        Ok(Facts { list, rows, groups })
    }
}
