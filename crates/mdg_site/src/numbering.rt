//! The numbers of a package's nodes and rows.
ghost use Rattle.std.specs.Prelude.{◌≡◌, ◌+◌, ◌*◌, ◌/◌, ◌%◌, ◌^◌, ◌<◌, ◌≤◌, IfOk, Some, length};
ghost use Rattle.mdg_site.specs.Answers.{node_limit, word_limit};
ghost use Rattle.mdg_site.specs.CodeTests.{IsLasting, is_object};
ghost use Rattle.mdg_site.specs.Laid.{laid, parameters_in};
ghost use Rattle.mdg_site.specs.Nodes.{node_count, node_number, number_of, object_count, object_number, shared_count};
ghost use Rattle.mdg_site.specs.Rows.{column_count, row_count, row_number, start, width_of, word_count, word_index};
ghost use Rattle.mdg_site.specs.Shapes.{shape_at};
ghost use Rattle.mdg_base.specs.declared.node_name.NodeName.TheVariants.{Ext, Shared, Site as AtSite, Src};

use crate::build::{node_names, object_names};
use crate::count::width;
use crate::row::{Row, outlives};
use crate::shape::Shape;
use crate::tables::Tables;
use mdg_base::{CellId, Column, FunId, NoMemory, Node, NodeName, SharedId, Site};
use std::alloc::Global;
use std::marker::Model;

/// The numbers of the nodes and rows of valid code. Contracts see a layout as what it tells: the code.
#[derive(Drop)]
pub struct Layout {
    tables: Tables,
    nodes: u32,
    width: u32,

    /// The names of nodes, by number, and of those that stand for objects, by their number among these.
    names: Vec<NodeName>,
    makers: Vec<NodeName>,
}

impl Model for Layout {
    ghost use Rattle.std.specs.Prelude.{◌≡◌, ◌≤◌};
    ghost use Rattle.mdg_site.specs.Answers.{word_limit};
    ghost use Rattle.mdg_site.specs.Laid.{Laid};
    ghost use Rattle.mdg_site.specs.Nodes.{node_count, object_count};
    ghost use Rattle.mdg_site.specs.Rows.{width_of, word_count};
    ghost use Rattle.mdg_site.specs.Tables.{AreNodeNames, AreObjectNames};

    ghost Value = { Laid };

    ghost view = { λ a. a.tables };

    ghost invariant = { λ a. record { nodes_are : a.nodes ≡ node_count a.tables; width_is : a.width ≡ width_of a.tables; few_words : word_count a.tables ≤ word_limit; names_are : AreNodeNames a.tables (node_count a.tables) a.names.items; makers_are : AreObjectNames a.tables (object_count a.tables) a.makers.items } };
}

impl Layout {
    /// The layout with these tables.
    pub(crate) fn with_tables(alloc: Global, tables: Tables) -> Result<Layout, NoMemory>
        ensures { IfOk result (λ layout. layout ≡ tables) }
    {
        let names = node_names(alloc, &tables)?;
        let makers = object_names(alloc, &tables)?;
        let nodes = tables.node_count();
        let width = width(u64::from(nodes)) as u32;
        Ok(Layout {
            tables,
            nodes,
            width,
            names,
            makers,
        })
    }

    /// How many nodes there are.
    pub fn nodes(&self) -> u32
        ensures { result ≡ node_count self.now }
    {
        self.nodes
    }

    /// How many rows there are.
    pub fn rows(&self) -> u32
        ensures { result ≡ row_count self.now }
    {
        self.tables.start_of(12)
    }

    /// How many words of 64 nodes a row has, at least 1.
    pub fn width(&self) -> u32
        ensures { result ≡ width_of self.now }
    {
        self.width
    }

    /// How many words all rows have.
    pub fn words(&self) -> u32
        ensures is { result ≡ word_count self.now }
        ensures within { result ≤ word_limit }
    {
        self.rows() * self.width
    }

    /// How many columns there are: one for each static property name, and one for all other names.
    pub fn columns(&self) -> u64
        ensures { result ≡ column_count self.now }
    {
        u64::from(self.tables.names()) + 1
    }

    /// The column of all names that aren't static, which is the last.
    pub fn other_column(&self) -> Column
        ensures { result.0 ≡ length self.now.code.columns }
    {
        Column(self.tables.names())
    }

    /// How many functions there are.
    pub fn functions(&self) -> u32
        ensures { result ≡ length self.now.code.functions }
    {
        self.tables.functions()
    }

    /// How many shared things there are.
    pub fn shared_things(&self) -> u32
        ensures { result ≡ shared_count self.now }
    {
        self.tables.shared_things()
    }

    /// How many rows are those of locals. They have the first numbers.
    pub fn local_rows(&self) -> u32
        ensures { result ≡ start self.now 1 }
    {
        self.tables.start_of(1)
    }

    /// Which nodes and rows the statement at the site has. Where there is no such site it has none.
    pub fn shape_at(&self, site: Site) -> Shape
        ensures { result ≡ shape_at self.now site.0 }
    {
        self.tables.shape_at(site)
    }

    /// The number of the node, where there is such a node.
    pub fn node_of(&self, node: NodeName) -> Option<Node>
        ensures { number_of result ≡ node_number self.now node }
    {
        match self.tables.node_of(node) {
            Some(number) => Some(Node(number)),
            None => None,
        }
    }

    /// The statement's own node, where it has one.
    pub fn site_node(&self, site: Site) -> Option<Node>
        ensures { number_of result ≡ node_number self.now (AtSite site) }
    {
        self.node_of(NodeName::Site(site))
    }

    /// The node for what outside code hands back at the statement, where it has one.
    pub fn ext_node(&self, site: Site) -> Option<Node>
        ensures { number_of result ≡ node_number self.now (Ext site) }
    {
        self.node_of(NodeName::Ext(site))
    }

    /// The node for what the outer caller hands to the parameter, where the function has it.
    pub fn src_node(&self, function: FunId, parameter: u32) -> Option<Node>
        ensures { number_of result ≡ node_number self.now (Src function parameter) }
    {
        self.node_of(NodeName::Src(function, parameter))
    }

    /// The node of the shared thing, where there is such a thing.
    pub fn shared_node(&self, shared: SharedId) -> Option<Node>
        ensures { number_of result ≡ node_number self.now (Shared shared) }
    {
        self.node_of(NodeName::Shared(shared))
    }

    /// How many parameters the function has. Where there is no such function it has none.
    pub fn parameters_in(&self, function: FunId) -> u32
        ensures { result ≡ parameters_in self.now function.0 }
    {
        self.tables.parameters_in(function)
    }

    /// Whether there is such a node and it stands for an object, which has fields.
    pub fn is_object(&self, node: NodeName) -> bool
        ensures { result ≡ is_object self.now node }
    {
        self.tables.is_object(node)
    }

    /// The number of the row, where there is such a row.
    pub fn row_of(&self, row: Row) -> Option<u32>
        ensures { result ≡ row_number self.now row }
    {
        self.tables.row_of(row)
    }

    /// The name of the node that has this number.
    pub fn name_of(&self, node: Node) -> NodeName
        requires in_range { node.0 < node_count self.now }
        ensures { node_number self.now result ≡ Some node.0 }
    {
        self.names[node.0 as usize]
    }

    /// The name of the node that has this number among those that stand for objects.
    fn maker_of(&self, number: u32) -> NodeName
        requires { number < object_count self.now }
        ensures { object_number self.now result ≡ Some number }
    {
        self.makers[number as usize]
    }

    /// The property row that has this number among property rows.
    fn field_at(&self, number: u32) -> Row
        requires { number < object_count self.now * column_count self.now }
        ensures { row_number self.now result ≡ Some (start self.now 2 + number) }
    {
        let columns = self.columns();
        let maker = (u64::from(number) / columns) as u32;
        let column = (u64::from(number) % columns) as u32;
        Row::Field(self.maker_of(maker), Column(column))
    }

    /// The row that has this number.
    pub fn row_at(&self, row: u32) -> Row
        requires in_range { row < row_count self.now }
        ensures { row_number self.now result ≡ Some row }
    {
        if row < self.start_of(1) {
            self.tables.local_at(row)
        } else if row < self.start_of(2) {
            Row::Cell(CellId(row - self.start_of(1)))
        } else if row < self.start_of(3) {
            self.field_at(row - self.start_of(2))
        } else if row < self.start_of(4) {
            Row::Newer(self.name_of(Node(row - self.start_of(3))))
        } else if row < self.start_of(5) {
            Row::Dep(self.name_of(Node(row - self.start_of(4))))
        } else {
            self.late_row_at(row)
        }
    }

    /// The row that has this number, where it is one that outlives a statement and that no statement has of its
    /// own. The rows of locals, the first in number, are none of these.
    pub fn lasting_at(&self, row: u32) -> Option<Row>
        requires in_range { row < row_count self.now }
        ensures { IsLasting self.now row result }
    {
        let found = self.row_at(row);
        if outlives(found) { Some(found) } else { None }
    }

    /// The row that has this number, of the kinds after `Dep`.
    fn late_row_at(&self, row: u32) -> Row
        requires late { start self.now 5 ≤ row }
        requires in_range { row < row_count self.now }
        ensures { row_number self.now result ≡ Some row }
    {
        if row < self.start_of(6) {
            Row::Ret(FunId(row - self.start_of(5)))
        } else if row < self.start_of(7) {
            Row::Known(self.tables.known_at(row - self.start_of(6)))
        } else if row < self.start_of(8) {
            Row::Exp
        } else if row < self.start_of(9) {
            Row::IsFunction(FunId(row - self.start_of(8)))
        } else if row < self.start_of(10) {
            Row::IsShared(SharedId(row - self.start_of(9)))
        } else if row < self.start_of(11) {
            Row::Vague
        } else {
            Row::Foreign
        }
    }

    fn start_of(&self, kind: usize) -> u32
        requires { kind ≤ 12 }
        ensures { result ≡ start self.now kind }
    {
        self.tables.start_of(kind)
    }

    /// The index of the word in which the fact that the node stands in the row has its bit, and that bit.
    pub fn word_of(&self, row: u32, node: Node) -> (u32, u64)
        requires row_in_range { row < row_count self.now }
        requires node_in_range { node.0 < node_count self.now }
        ensures word { result.0 ≡ word_index self.now row node.0 }
        ensures within { result.0 < word_count self.now }
        ensures mask { result.1 ≡ 2 ^ (node.0 % 64) }
    {
        (self.word_at(row, node.0 / 64), 1 << (node.0 % 64))
    }

    /// The index of the row's word with this number.
    fn word_at(&self, row: u32, word: u32) -> u32
        requires row_in_range { row < row_count self.now }
        requires word_in_range { word < width_of self.now }
        ensures is { result ≡ row * width_of self.now + word }
        ensures within { result < word_count self.now }
    {
        row * self.width + word
    }
}
