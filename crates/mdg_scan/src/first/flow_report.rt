//! What is written of the flows.
ghost use Rattle.std.specs.Prelude.{◌≡◌, ◌++◌, IfOk, OnOk};
ghost use Rattle.std.specs.Fmt.{decimal};
ghost use Rattle.mdg_scan.specs.Report.{count_line, flow_line, flow_lines, line_at, name_at, place, report, sink_argument, status_of};

use crate::first::{Code, Flow, Line, SharedRow};
use crate::{Reply, Status};
use mdg_base::{NoMemory, Text};
use std::alloc::Global;

// The line of the file that the statement comes from.
fn line_at(lines: &[Line], site: u32) -> u32
    ensures { result ≡ line_at lines.now site }
{
    match lines.get(site as usize) {
        Some(line) => line.line,
        None => 0,
    }
}

// The name of the shared thing.
fn name_at(shared: &[SharedRow], number: u32) -> &str
    ensures { result.now ≡ name_at shared.now number }
{
    match shared.get(number as usize) {
        Some(row) => row.name.as_str(),
        None => "",
    }
}

// Appends the digits of the number.
fn add_number(alloc: Global, text: &mut Text, number: u64) -> Result<(), NoMemory>
    ensures { OnOk result (text.new ≡ text.old ++ decimal number) }
{
    let digits = format!(in alloc; "{number}")?;
    text.add(digits.as_str())
}

// Appends where the call stands.
#[tactic(auto, unfolding(crate::specs::Report::place))]
fn add_place(alloc: Global, text: &mut Text, line: u32) -> Result<(), NoMemory>
    ensures { OnOk result (text.new ≡ text.old ++ place line) }
{
    text.add("index.js:")?;
    add_number(alloc, text, u64::from(line))
}

// Appends what is called, and with which argument.
#[tactic(auto, unfolding(crate::specs::Report::sink_argument))]
fn add_sink_argument(
    alloc: Global,
    text: &mut Text,
    name: &str,
    argument: u32,
) -> Result<(), NoMemory>
    ensures { OnOk result (text.new ≡ text.old ++ sink_argument name.now argument) }
{
    text.add(" ")?;
    text.add(name)?;
    text.add(" argument ")?;
    add_number(alloc, text, u64::from(argument))
}

// Appends the flow's line.
#[tactic(auto, unfolding(crate::specs::Report::flow_line))]
fn add_flow(alloc: Global, text: &mut Text, code: &Code, flow: Flow) -> Result<(), NoMemory>
    ensures { OnOk result (text.new ≡ text.old ++ flow_line code.now flow) }
{
    text.add("flow ")?;
    add_place(alloc, text, line_at(code.lines.as_slice(), flow.call.0))?;
    add_sink_argument(
        alloc,
        text,
        name_at(code.shared.as_slice(), flow.sink.0),
        flow.argument,
    )?;
    text.add("\n")
}

// Appends the line of each flow.
fn add_flows(alloc: Global, text: &mut Text, code: &Code, flows: &[Flow]) -> Result<(), NoMemory>
    ensures { OnOk result (text.new ≡ text.old ++ flow_lines code.now flows.now) }
{
    for flow in flows {
        add_flow(alloc, text, code, *flow)?;
    }
    Ok(())
}

// Appends how many findings there are.
fn add_count(alloc: Global, text: &mut Text, flows: &[Flow]) -> Result<(), NoMemory>
    ensures { OnOk result (text.new ≡ text.old ++ count_line flows.now) }
{
    text.add("findings ")?;
    add_number(alloc, text, flows.len() as u64)?;
    text.add("\n")
}

fn status_of(flows: &[Flow]) -> Status
    ensures { result ≡ status_of flows.now }
{
    match flows {
        [] => Status::Clean,
        [_, ..] => Status::Findings,
    }
}

/// The status of a scan that finds these flows, and its text: a line for each flow in their order, and how many there
/// are.
pub fn report(alloc: Global, code: &Code, flows: &[Flow]) -> Result<Reply, NoMemory>
    ensures { IfOk result (λ reply. reply ≡ report code.now flows.now) }
{
    let mut text = Text::of(alloc, "")?;
    add_flows(alloc, &mut text, code, flows)?;
    add_count(alloc, &mut text, flows)?;
    Ok(Reply {
        status: status_of(flows),
        text,
    })
}
