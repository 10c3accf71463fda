//! The tables by which nodes and rows have their numbers.
ghost use Rattle.std.specs.Prelude.{◌≡◌, ◌+◌, ◌-◌, ◌*◌, ◌^◌, ◌<◌, ◌≤◌, Some, length, slice_index};
ghost use Rattle.mdg_code.specs.Ranges.{IsCounted};
ghost use Rattle.mdg_site.specs.Answers.{node_limit, word_limit};
ghost use Rattle.mdg_site.specs.Blocks.{below, grid, shift, slot, slot_at, sum_below};
ghost use Rattle.mdg_site.specs.CodeTests.{is_object};
ghost use Rattle.mdg_site.specs.Laid.{laid, locals_at, parameters_in, site_count};
ghost use Rattle.mdg_site.specs.Nodes.{early_count, node_count, node_number, node_size_at, object_count, object_number, object_size_at, shared_count, source_count};
ghost use Rattle.mdg_site.specs.Rows.{column_count, kind, kind_size, known_size_at, place, row_count, row_number, start, word_count};
ghost use Rattle.mdg_site.specs.Shapes.{shape_at};
ghost use Rattle.mdg_site.specs.Tables.{IsSmall, IsTable, pair_name};
ghost use Rattle.mdg_site.specs.declared.row.Row.TheVariants.{Known};

use crate::row::Row;
use crate::shape::{Shape, first_of, second_of, shape_of};
use crate::slot::{below, grid, place_of, shift, slot, slot_at};
use mdg_base::{Column, FunId, Local, NodeName, SharedId, Site};
use mdg_code::{Code, Statement};
use std::marker::Model;
use std::snapshot::Snapshot;

/// The tables of a layout. Contracts see them as what the layout tells.
#[derive(Drop)]
pub struct Tables {
    pub code: Snapshot<Code>,
    pub functions: u32,
    pub cells: u32,
    pub shared: u32,

    /// How many static property names there are. There is one column more.
    pub names: u32,

    /// For each function where its parameters begin among all, and where the last ones end. So on for the
    /// nodes, the objects, the locals and the rows of what goes in at each site, and for kinds of rows.
    pub sources: Vec<u32>,
    pub nodes: Vec<u32>,
    pub objects: Vec<u32>,
    pub locals: Vec<u32>,
    pub known: Vec<u32>,
    pub starts: Vec<u32>,

    /// For each site which nodes and rows it has.
    pub shapes: Vec<Shape>,
}

impl Model for Tables {
    ghost use Rattle.std.specs.Prelude.{◌≡◌, length};
    ghost use Rattle.mdg_site.specs.Laid.{Laid, laid};
    ghost use Rattle.mdg_site.specs.Tables.{AreTables, IsSmall};

    ghost Value = { Laid };

    ghost view = { λ a. laid a.code.value };

    ghost invariant = { λ a. record { functions_are : a.functions ≡ length a.code.value.functions; cells_are : a.cells ≡ length a.code.value.cells; shared_are : a.shared ≡ length a.code.value.shared; names_are : a.names ≡ length a.code.value.columns; small : IsSmall (laid a.code.value); tables : AreTables (laid a.code.value) a.sources.items a.nodes.items a.objects.items a.locals.items a.known.items a.starts.items a.shapes.items } };
}

impl Tables {
    fn source_starts(&self) -> &[u32]
        ensures is { IsTable (parameters_in self.now) (length self.now.code.functions) result.now }
        ensures short { length result.now ≤ 2 ^ 32 }
    {
        self.sources.as_slice()
    }

    fn node_starts(&self) -> &[u32]
        ensures is { IsTable (node_size_at self.now) (site_count self.now) result.now }
        ensures short { length result.now ≤ 2 ^ 32 }
    {
        self.nodes.as_slice()
    }

    fn object_starts(&self) -> &[u32]
        ensures is { IsTable (object_size_at self.now) (site_count self.now) result.now }
        ensures short { length result.now ≤ 2 ^ 32 }
    {
        self.objects.as_slice()
    }

    fn local_starts(&self) -> &[u32]
        ensures is { IsTable (locals_at self.now) (site_count self.now) result.now }
        ensures short { length result.now ≤ 2 ^ 32 }
    {
        self.locals.as_slice()
    }

    fn known_starts(&self) -> &[u32]
        ensures is { IsTable (known_size_at self.now) (site_count self.now) result.now }
        ensures short { length result.now ≤ 2 ^ 32 }
    {
        self.known.as_slice()
    }

    fn kind_starts(&self) -> &[u32]
        ensures is { IsTable (kind_size self.now) 12 result.now }
        ensures small { IsSmall self.now }
    {
        self.starts.as_slice()
    }

    /// How many functions there are.
    pub fn functions(&self) -> u32
        ensures { result ≡ length self.now.code.functions }
    {
        self.functions
    }

    /// How many shared things there are.
    pub fn shared_things(&self) -> u32
        ensures { result ≡ shared_count self.now }
    {
        self.shared
    }

    /// How many cells there are.
    pub fn cells(&self) -> u32
        ensures { result ≡ length self.now.code.cells }
    {
        self.cells
    }

    /// The number of the last column.
    pub fn names(&self) -> u32
        ensures { result ≡ length self.now.code.columns }
    {
        self.names
    }

    /// Which nodes and rows the statement at the site has. Where there is no such site it has none.
    pub fn shape_at(&self, site: Site) -> Shape
        ensures { result ≡ shape_at self.now site.0 }
    {
        match self.shapes.get(site.0 as usize) {
            Some(shape) => *shape,
            None => shape_of(&Statement::Land),
        }
    }

    /// Where the rows of the kind begin.
    pub fn start_of(&self, kind: usize) -> u32
        requires { kind ≤ 12 }
        ensures is { result ≡ start self.now kind }
        ensures small { row_count self.now ≤ 2 ^ 27 }
    {
        self.kind_starts()[kind]
    }

    fn source_count(&self) -> u32
        ensures { result ≡ source_count self.now }
    {
        self.source_starts()[self.functions as usize]
    }

    fn early_count(&self) -> u32
        ensures is { result ≡ early_count self.now }
        ensures small { node_count self.now ≤ node_limit }
    {
        self.source_count() + self.shared
    }

    fn source_slot(&self, function: FunId, parameter: u32) -> Option<u32>
        ensures { result ≡ slot (parameters_in self.now) function.0 parameter }
    {
        slot(self.source_starts(), function.0, parameter)
    }

    fn shared_slot(&self, shared: SharedId) -> Option<u32>
        ensures { result ≡ shift (source_count self.now) (below (shared_count self.now) shared.0) }
    {
        shift(self.source_count(), below(self.shared, shared.0))
    }

    fn node_slot(&self, site: Site, x: Option<u32>) -> Option<u32>
        ensures { result ≡ slot_at (node_size_at self.now) site.0 x }
    {
        slot_at(self.node_starts(), site.0, x)
    }

    fn late_node(&self, site: Site, x: Option<u32>) -> Option<u32>
        ensures { result ≡ shift (early_count self.now) (slot_at (node_size_at self.now) site.0 x) }
    {
        shift(self.early_count(), self.node_slot(site, x))
    }

    fn object_slot(&self, site: Site, x: Option<u32>) -> Option<u32>
        ensures { result ≡ slot_at (object_size_at self.now) site.0 x }
    {
        slot_at(self.object_starts(), site.0, x)
    }

    fn late_object(&self, site: Site, x: Option<u32>) -> Option<u32>
        ensures { result ≡ shift (early_count self.now) (slot_at (object_size_at self.now) site.0 x) }
    {
        shift(self.early_count(), self.object_slot(site, x))
    }

    fn local_slot(&self, site: Site, local: Local) -> Option<u32>
        ensures { result ≡ slot (locals_at self.now) site.0 local.0 }
    {
        slot(self.local_starts(), site.0, local.0)
    }

    fn known_slot(&self, site: Site, x: Option<u32>) -> Option<u32>
        ensures { result ≡ slot_at (known_size_at self.now) site.0 x }
    {
        slot_at(self.known_starts(), site.0, x)
    }

    /// How many nodes there are.
    pub fn node_count(&self) -> u32
        ensures is { result ≡ node_count self.now }
        ensures small { node_count self.now ≤ node_limit }
        ensures few_words { word_count self.now ≤ word_limit }
    {
        let _starts = self.kind_starts();
        self.early_count() + last(self.node_starts())
    }

    /// How many of them stand for objects.
    pub fn object_count(&self) -> u32
        ensures { result ≡ object_count self.now }
    {
        self.early_count() + last(self.object_starts())
    }

    /// How many parameters the function has. Where there is no such function it has none.
    pub fn parameters_in(&self, function: FunId) -> u32
        ensures { result ≡ parameters_in self.now function.0 }
    {
        let starts = self.source_starts();
        let at = function.0 as usize;
        if at + 1 < starts.len() {
            starts[at + 1] - starts[at]
        } else {
            0
        }
    }

    /// Whether the node stands for an object, which has fields.
    pub fn is_object(&self, node: NodeName) -> bool
        ensures { result ≡ is_object self.now node }
    {
        match node {
            NodeName::Src(function, parameter) => parameter < self.parameters_in(function),
            NodeName::Shared(shared) => shared.0 < self.shared,
            NodeName::Site(site) => self.shape_at(site).fields,
            NodeName::Ext(site) => self.shape_at(site).outside,
            NodeName::Caller => false,
        }
    }

    /// The number of the node, where there is such a node.
    pub fn node_of(&self, node: NodeName) -> Option<u32>
        ensures { result ≡ node_number self.now node }
    {
        match node {
            NodeName::Src(function, parameter) => self.source_slot(function, parameter),
            NodeName::Shared(shared) => self.shared_slot(shared),
            NodeName::Site(site) => self.late_node(site, first_of(self.shape_at(site).own)),
            NodeName::Ext(site) => {
                let shape = self.shape_at(site);
                self.late_node(site, second_of(shape.own, shape.outside))
            }
            NodeName::Caller => None,
        }
    }

    /// The number among the nodes that stand for objects.
    pub fn object_of(&self, node: NodeName) -> Option<u32>
        ensures { result ≡ object_number self.now node }
    {
        match node {
            NodeName::Src(function, parameter) => self.source_slot(function, parameter),
            NodeName::Shared(shared) => self.shared_slot(shared),
            NodeName::Site(site) => self.late_object(site, first_of(self.shape_at(site).fields)),
            NodeName::Ext(site) => {
                let shape = self.shape_at(site);
                self.late_object(site, second_of(shape.fields, shape.outside))
            }
            NodeName::Caller => None,
        }
    }

    /// The source of this number.
    fn source_at(&self, number: u32) -> NodeName
        requires { number < source_count self.now }
        ensures node { node_number self.now result ≡ Some number }
        ensures object { object_number self.now result ≡ Some number }
    {
        let (function, parameter) = place_of(self.source_starts(), number);
        NodeName::Src(FunId(function), parameter)
    }

    /// The node of this number among those of sites.
    fn late_node_at(&self, number: u32) -> NodeName
        requires { number < sum_below (node_size_at self.now) (site_count self.now) }
        ensures { node_number self.now result ≡ Some (early_count self.now + number) }
    {
        let (site, place) = place_of(self.node_starts(), number);
        pair_name(self.shape_at(Site(site)).own, Site(site), place)
    }

    /// The node of this number among those of sites that stand for objects.
    fn late_object_at(&self, number: u32) -> NodeName
        requires { number < sum_below (object_size_at self.now) (site_count self.now) }
        ensures { object_number self.now result ≡ Some (early_count self.now + number) }
    {
        let (site, place) = place_of(self.object_starts(), number);
        pair_name(self.shape_at(Site(site)).fields, Site(site), place)
    }

    /// The name of the node of this number.
    pub fn node_at(&self, number: u32) -> NodeName
        requires { number < node_count self.now }
        ensures { node_number self.now result ≡ Some number }
    {
        let sources = self.source_count();
        let early = self.early_count();
        if number < sources {
            self.source_at(number)
        } else if number < early {
            NodeName::Shared(SharedId(number - sources))
        } else {
            self.late_node_at(number - early)
        }
    }

    /// The name of the node of this number among those that stand for objects.
    pub fn object_at(&self, number: u32) -> NodeName
        requires { number < object_count self.now }
        ensures { object_number self.now result ≡ Some number }
    {
        let sources = self.source_count();
        let early = self.early_count();
        if number < sources {
            self.source_at(number)
        } else if number < early {
            NodeName::Shared(SharedId(number - sources))
        } else {
            self.late_object_at(number - early)
        }
    }

    /// The row of the local that has this number.
    pub fn local_at(&self, number: u32) -> Row
        requires { number < sum_below (locals_at self.now) (site_count self.now) }
        ensures { row_number self.now result ≡ Some number }
    {
        let (site, local) = place_of(self.local_starts(), number);
        Row::Loc(Site(site), Local(local))
    }

    /// The site at which the row of this number is that of what goes in.
    pub fn known_at(&self, number: u32) -> Site
        requires { number < sum_below (known_size_at self.now) (site_count self.now) }
        ensures { place self.now (Known result) ≡ Some number }
    {
        let (site, _place) = place_of(self.known_starts(), number);
        Site(site)
    }

    fn field_slot(&self, node: NodeName, column: Column) -> Option<u32>
        ensures { result ≡ grid (column_count self.now) (object_number self.now node) column.0 }
    {
        grid(u64::from(self.names) + 1, self.object_of(node), column.0)
    }

    /// The number among the rows of its kind.
    fn place(&self, row: Row) -> Option<u32>
        ensures { result ≡ place self.now row }
    {
        match row {
            Row::Loc(site, local) => self.local_slot(site, local),
            Row::Cell(cell) => below(self.cells, cell.0),
            Row::Field(node, column) => self.field_slot(node, column),
            Row::Newer(node) | Row::Dep(node) => self.node_of(node),
            Row::Ret(function) | Row::IsFunction(function) => below(self.functions, function.0),
            Row::Known(site) => self.known_slot(site, first_of(self.shape_at(site).known)),
            Row::IsShared(shared) => below(self.shared, shared.0),
            Row::Exp | Row::Vague | Row::Foreign => Some(0),
        }
    }

    /// The number of the row, where there is such a row.
    pub fn row_of(&self, row: Row) -> Option<u32>
        ensures { result ≡ row_number self.now row }
    {
        shift(self.start_of(kind_of(row)), self.place(row))
    }
}

/// Where the last block ends.
fn last(table: &[u32]) -> u32
    requires { 0 < length table.now }
    ensures { result ≡ slice_index table.now (length table.now - 1) }
{
    table[table.len() - 1]
}

/// Of a site's own node and its outside node, the one with this number.
fn pair_name(own: bool, site: Site, place: u32) -> NodeName
    ensures { result ≡ pair_name own site place }
{
    if own && place == 0 {
        NodeName::Site(site)
    } else {
        NodeName::Ext(site)
    }
}

fn kind_of(row: Row) -> usize
    ensures is { result ≡ kind row }
    ensures range { result < 12 }
{
    match row {
        Row::Loc(..) => 0,
        Row::Cell(..) => 1,
        Row::Field(..) => 2,
        Row::Newer(..) => 3,
        Row::Dep(..) => 4,
        Row::Ret(..) => 5,
        Row::Known(..) => 6,
        Row::Exp => 7,
        Row::IsFunction(..) => 8,
        Row::IsShared(..) => 9,
        Row::Vague => 10,
        Row::Foreign => 11,
    }
}
