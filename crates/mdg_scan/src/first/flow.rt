//! The flows from parameters into sinks.
ghost use Rattle.std.specs.Prelude.{◌≡◌, ◌↔◌, IfOk, OnOk, IsTrue, Contains, ◌++◌, ◌<◌, ◌^◌, length, map};
ghost use Rattle.std.specs.List.{filter_map};
ghost use Rattle.mdg_scan.specs.declared.first.fact.Fact.{Fact};
ghost use Rattle.mdg_base.specs.declared.node_name.NodeName.{NodeName};
ghost use Rattle.mdg_scan.specs.Finding.{Adds, HasEdges, Somewhere, flow_from};
ghost use Rattle.mdg_scan.specs.Flows.{AreFlows, HaveCommon, IsArgumentFlow, IsListedFlow, IsSinkFlow, IsStatementFlow, Reaches};

use crate::first::edges::{property_edges, turned_edges};
use crate::first::gather::push_some;
use crate::first::reach::reached;
use crate::first::{Code, Edge, Fact, Facts, Line, Row, SharedRow, Statement};
use mdg_base::{FunId, Items, Kind, Local, NoMemory, NodeName, SharedId, Site};
use std::alloc::Global;

/// A parameter's data can reach an argument of a sink. Flows are ordered as a report lists them.
#[derive(Clone, Copy, Debug, PartialEq, Eq, PartialOrd, Ord)]
pub struct Flow {
    pub call: Site,
    pub sink: SharedId,

    /// The number of the argument, counted from 0.
    pub argument: u32,
    pub function: FunId,

    /// The number of the function's parameter, counted from 0.
    pub parameter: u32,
}

// The nodes of these facts.
fn nodes_of(alloc: Global, facts: &[Fact]) -> Result<Vec<NodeName>, NoMemory>
    ensures { IfOk result (λ nodes. nodes.items ≡ map (λ (f : Fact). f.node) facts.now) }
{
    let mut nodes = Vec::new(alloc);
    for fact in facts {
        nodes.push(fact.node)?;
    }
    Ok(nodes)
}

// Whether the two rows have a common node.
fn have_common(facts: &Facts, row: Row, other: Row) -> bool
    ensures { IsTrue result ↔ HaveCommon (Contains facts.now) row other }
{
    for fact in facts.row(row) {
        let same = Fact {
            row: other,
            node: fact.node,
        };
        if facts.has(&same) {
            return true;
        }
    }
    false
}

// The edges along which flows go: property edges, and edges of paths turned round.
#[derive(Drop)]
struct FlowEdges {
    property: Vec<Edge>,
    turned: Vec<Edge>,
}

// The nodes from which a path leads to what a node of the row holds, itself or by properties of properties.
fn origins(
    alloc: Global,
    facts: &Facts,
    edges: &FlowEdges,
    row: Row,
) -> Result<Vec<NodeName>, NoMemory>
    requires { HasEdges facts.now edges.now.property.items edges.now.turned.items }
    ensures { IfOk result (λ nodes. (n : NodeName) → Contains nodes.items n ↔ Reaches (Contains facts.now) n row) }
{
    let starts = nodes_of(alloc, facts.row(row))?;
    let held = reached(alloc, edges.property.as_slice(), starts.as_slice())?;
    reached(alloc, edges.turned.as_slice(), held.as_slice())
}

// The flow into this argument from the node, if the node is a parameter's.
fn flow_from(call: Site, sink: SharedId, argument: u32, node: NodeName) -> Option<Flow>
    ensures { result ≡ flow_from call sink argument node }
{
    match node {
        NodeName::Src(function, parameter) => Some(Flow {
            call,
            sink,
            argument,
            function,
            parameter,
        }),
        _ => None,
    }
}

// Adds a flow from each parameter among the nodes.
fn add_origins(
    nodes: &[NodeName],
    call: Site,
    sink: SharedId,
    argument: u32,
    flows: &mut Vec<Flow>,
) -> Result<(), NoMemory>
    ensures { OnOk result (flows.new.items ≡ flows.old.items ++ filter_map (flow_from call sink argument) nodes.now) }
{
    for node in nodes {
        push_some(flows, flow_from(call, sink, argument, *node))?;
    }
    Ok(())
}

// Adds the flows into this argument, which is this local of the caller.
fn add_argument(
    alloc: Global,
    facts: &Facts,
    edges: &FlowEdges,
    call: Site,
    sink: SharedId,
    argument: u32,
    local: Local,
    flows: &mut Vec<Flow>,
) -> Result<(), NoMemory>
    requires { HasEdges facts.now edges.now.property.items edges.now.turned.items }
    ensures { OnOk result (Adds (IsArgumentFlow (Contains facts.now) call sink argument local) flows.old.items flows.new.items) }
{
    let nodes = origins(alloc, facts, edges, Row::Loc(call, local))?;
    add_origins(nodes.as_slice(), call, sink, argument, flows)
}

// Adds the flows into the argument that a sink lists, where the call has it.
fn add_listed(
    alloc: Global,
    facts: &Facts,
    edges: &FlowEdges,
    call: Site,
    sink: SharedId,
    arguments: &[Local],
    argument: u32,
    flows: &mut Vec<Flow>,
) -> Result<(), NoMemory>
    requires { HasEdges facts.now edges.now.property.items edges.now.turned.items }
    ensures { OnOk result (Adds (IsListedFlow (Contains facts.now) call sink arguments.now argument) flows.old.items flows.new.items) }
{
    match arguments.get(argument as usize) {
        Some(local) => add_argument(alloc, facts, edges, call, sink, argument, *local, flows),
        None => Ok(()),
    }
}

// Adds the flows into all arguments that a sink lists.
fn add_arguments(
    alloc: Global,
    facts: &Facts,
    edges: &FlowEdges,
    call: Site,
    sink: SharedId,
    arguments: &[Local],
    listed: &[u32],
    flows: &mut Vec<Flow>,
) -> Result<(), NoMemory>
    requires { HasEdges facts.now edges.now.property.items edges.now.turned.items }
    ensures { OnOk result (Adds (Somewhere (λ _ argument. IsListedFlow (Contains facts.now) call sink arguments.now argument) listed.now) flows.old.items flows.new.items) }
{
    for argument in listed {
        add_listed(alloc, facts, edges, call, sink, arguments, *argument, flows)?;
    }
    Ok(())
}

// Adds the flows into the shared thing, where it is a sink that the call may call.
fn add_sink(
    alloc: Global,
    facts: &Facts,
    edges: &FlowEdges,
    call: Site,
    callee: Local,
    arguments: &[Local],
    sink: SharedId,
    kind: &Kind,
    flows: &mut Vec<Flow>,
) -> Result<(), NoMemory>
    requires { HasEdges facts.now edges.now.property.items edges.now.turned.items }
    ensures { OnOk result (Adds (IsSinkFlow (Contains facts.now) call callee arguments.now sink kind.now) flows.old.items flows.new.items) }
{
    let Kind::Sink(listed) = kind else {
        return Ok(());
    };
    if !have_common(facts, Row::Loc(call, callee), Row::IsShared(sink)) {
        return Ok(());
    }
    add_arguments(
        alloc,
        facts,
        edges,
        call,
        sink,
        arguments,
        listed.as_slice(),
        flows,
    )
}

// Adds the flows of the call.
fn add_call(
    alloc: Global,
    facts: &Facts,
    edges: &FlowEdges,
    call: Site,
    callee: Local,
    arguments: &[Local],
    shared: &[SharedRow],
    flows: &mut Vec<Flow>,
) -> Result<(), NoMemory>
    requires edges { HasEdges facts.now edges.now.property.items edges.now.turned.items }
    requires few { length shared.now < 2 ^ 32 }
    ensures { OnOk result (Adds (Somewhere (λ b row. IsSinkFlow (Contains facts.now) call callee arguments.now (record { 0 = b }) row.kind) shared.now) flows.old.items flows.new.items) }
{
    for (at, row) in shared.iter().enumerate() {
        let sink = SharedId(at as u32);
        add_sink(
            alloc, facts, edges, call, callee, arguments, sink, &row.kind, flows,
        )?;
    }
    Ok(())
}

// Adds the flows of the statement, where it is a call.
fn add_statement(
    alloc: Global,
    facts: &Facts,
    edges: &FlowEdges,
    site: Site,
    statement: &Statement,
    shared: &[SharedRow],
    flows: &mut Vec<Flow>,
) -> Result<(), NoMemory>
    requires edges { HasEdges facts.now edges.now.property.items edges.now.turned.items }
    requires few { length shared.now < 2 ^ 32 }
    ensures { OnOk result (Adds (IsStatementFlow (Contains facts.now) site statement.now shared.now) flows.old.items flows.new.items) }
{
    match statement {
        Statement::Call {
            callee,
            arguments,
            ..
        } => add_call(
            alloc,
            facts,
            edges,
            site,
            *callee,
            arguments.as_slice(),
            shared,
            flows,
        ),
        _ => Ok(()),
    }
}

// Adds the flows of all statements.
fn add_all(
    alloc: Global,
    facts: &Facts,
    edges: &FlowEdges,
    lines: &[Line],
    shared: &[SharedRow],
    flows: &mut Vec<Flow>,
) -> Result<(), NoMemory>
    requires edges { HasEdges facts.now edges.now.property.items edges.now.turned.items }
    requires few { (length shared.now < 2 ^ 32) × (length lines.now < 2 ^ 32) }
    ensures { OnOk result (Adds (Somewhere (λ s line. IsStatementFlow (Contains facts.now) (record { 0 = s }) line.statement shared.now) lines.now) flows.old.items flows.new.items) }
{
    for (at, line) in lines.iter().enumerate() {
        add_statement(
            alloc,
            facts,
            edges,
            Site(at as u32),
            &line.statement,
            shared,
            flows,
        )?;
    }
    Ok(())
}

/// All flows of the code by these facts, each once, in the order of a report.
pub fn flows(alloc: Global, code: &Code, facts: &Facts) -> Result<Items<Flow>, NoMemory>
    requires { (length code.now.shared < 2 ^ 32) × (length code.now.lines < 2 ^ 32) }
    ensures { IfOk result (AreFlows (Contains facts.now) code.now) }
{
    let edges = FlowEdges {
        property: property_edges(alloc, facts.as_slice())?,
        turned: turned_edges(alloc, facts.as_slice())?,
    };
    let mut flows = Vec::new(alloc);
    add_all(
        alloc,
        facts,
        &edges,
        code.lines.as_slice(),
        code.shared.as_slice(),
        &mut flows,
    )?;
    flows.sort_unstable();
    flows.dedup();
    Ok(Items::from_vec(flows))
}
