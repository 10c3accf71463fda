//! The table of rules: which rules a file's code has.
ghost use Rattle.std.specs.Prelude.{◌≡◌, ◌∷◌, ◌++◌, ◌+◌, ◌<◌, ◌^◌, [], length, map, Some, None, IfOk, OnOk};
ghost use Rattle.mdg_scan.specs.Rules.{in_row};
ghost use Rattle.mdg_scan.specs.Table.{carry, export_rules, function_rules, loc, makes, node, operand, operator_rules, parameter_rules, replaced, rules_at, rules_of, shared_rules, statement_rules, write_rules};

use crate::first::{Code, Fact, FunctionRow, Line, Row, Rule, SharedRow, Statement};
use mdg_base::{CellId, Column, FunId, Items, Local, NoMemory, NodeName, SharedId, Site};
use std::alloc::Global;

// The column of every name but `exports`.
const OTHER: Column = Column(1);

fn node_at(site: u32) -> NodeName
    ensures { result ≡ node site }
{
    NodeName::Site(Site(site))
}

fn local_at(site: u32, local: Local) -> Row
    ensures { result ≡ loc site local }
{
    Row::Loc(Site(site), local)
}

// Locals stay as they are, but for one.
fn carry(site: u32, except: Option<Local>) -> Rule
    requires { site + 1 < 2 ^ 32 }
    ensures { result ≡ carry site except }
{
    Rule::Carry {
        from: Site(site),
        to: Site(site + 1),
        except,
    }
}

// The statement's own node is in the local after it.
fn makes(site: u32, into: Local) -> Rule
    requires { site + 1 < 2 ^ 32 }
    ensures { result ≡ makes site into }
{
    Rule::Holds(Fact {
        row: local_at(site + 1, into),
        node: node_at(site),
    })
}

fn push_operands(rules: &mut Items<Rule>, site: u32, of: &[Local]) -> Result<(), NoMemory>
    ensures { OnOk result (rules.new ≡ rules.old ++ map (operand site) of.now) }
{
    for local in of {
        rules.push(Rule::Into {
            from: local_at(site, *local),
            to: Row::Known(Site(site)),
        })?;
    }
    Ok(())
}

fn push_operator(
    rules: &mut Items<Rule>,
    site: u32,
    into: Local,
    of: &[Local],
) -> Result<(), NoMemory>
    requires { site + 1 < 2 ^ 32 }
    ensures { OnOk result (rules.new ≡ rules.old ++ operator_rules site into of.now) }
{
    let known = Row::Known(Site(site));
    rules.push(carry(site, Some(into)))?;
    rules.push(makes(site, into))?;
    push_operands(rules, site, of)?;
    rules.push(Rule::Fields {
        from: known,
        to: known,
    })?;
    rules.push(Rule::MarkDep {
        from: known,
        computed: node_at(site),
    })
}

// The property that a write replaces. The one for every other name keeps what it held.
fn replaced(column: Column) -> Option<Column>
    ensures { result ≡ replaced column }
{
    if column == OTHER { None } else { Some(column) }
}

fn push_write(
    rules: &mut Items<Rule>,
    site: u32,
    of: Local,
    column: Column,
    value: Local,
) -> Result<(), NoMemory>
    requires { site + 1 < 2 ^ 32 }
    ensures { OnOk result (rules.new ≡ rules.old ++ write_rules site of column value) }
{
    let before = local_at(site, of);
    let node = node_at(site);
    rules.push(carry(site, Some(of)))?;
    rules.push(Rule::MarkNewer {
        from: before,
        newer: node,
    })?;
    rules.push(Rule::Given {
        from: before,
        fact: Fact {
            row: local_at(site + 1, of),
            node,
        },
    })?;
    rules.push(Rule::TakeOver {
        from: before,
        into: node,
        replaced: replaced(column),
    })?;
    rules.push(Rule::Alias {
        from: Site(site),
        object: of,
        to: Site(site + 1),
        newer: node,
    })?;
    rules.push(Rule::Into {
        from: local_at(site + 1, value),
        to: Row::Field(node, column),
    })
}

// Appends the rules of the statement.
fn push_rules(rules: &mut Items<Rule>, site: u32, statement: &Statement) -> Result<(), NoMemory>
    requires { site + 1 < 2 ^ 32 }
    ensures { OnOk result (rules.new ≡ rules.old ++ rules_at site statement.now) }
{
    match statement {
        Statement::Literal { into, .. } | Statement::Call { into, .. } => {
            rules.push(carry(site, Some(*into)))
        }
        Statement::Copy { into, of } => {
            rules.push(carry(site, Some(*into)))?;
            rules.push(Rule::Into {
                from: local_at(site, *of),
                to: local_at(site + 1, *into),
            })
        }
        Statement::Op { into, of } => push_operator(rules, site, *into, of.as_slice()),
        Statement::Object { into } => {
            rules.push(carry(site, Some(*into)))?;
            rules.push(makes(site, *into))
        }
        Statement::Function { into, function } => {
            rules.push(carry(site, Some(*into)))?;
            rules.push(makes(site, *into))?;
            rules.push(Rule::Holds(Fact {
                row: Row::IsFunction(*function),
                node: node_at(site),
            }))
        }
        Statement::Shared { into, shared } => {
            rules.push(carry(site, Some(*into)))?;
            rules.push(Rule::Into {
                from: Row::IsShared(*shared),
                to: local_at(site + 1, *into),
            })
        }
        Statement::Set { of, column, value } => push_write(rules, site, *of, *column, *value),
        Statement::SetCell { cell, value } => {
            rules.push(carry(site, None))?;
            rules.push(Rule::Into {
                from: local_at(site, *value),
                to: Row::Cell(*cell),
            })
        }
        Statement::Land => {
            rules.push(carry(site, None))?;
            rules.push(Rule::VersionsAt(Site(site)))
        }
        Statement::Return { .. } => Ok(()),
    }
}

fn push_shared(rules: &mut Items<Rule>, shared: &[SharedRow]) -> Result<(), NoMemory>
    requires { length shared.now < 2 ^ 32 }
    ensures { OnOk result (rules.new ≡ rules.old ++ shared_rules 0 shared.now) }
{
    for (shared, _) in shared.iter().enumerate() {
        let shared = SharedId(shared as u32);
        rules.push(Rule::Holds(Fact {
            row: Row::IsShared(shared),
            node: NodeName::Shared(shared),
        }))?;
    }
    Ok(())
}

fn push_statements(rules: &mut Items<Rule>, lines: &[Line]) -> Result<(), NoMemory>
    requires { length lines.now < 2 ^ 31 }
    ensures { OnOk result (rules.new ≡ rules.old ++ statement_rules 0 lines.now) }
{
    for (site, line) in lines.iter().enumerate() {
        push_rules(rules, site as u32, &line.statement)?;
    }
    Ok(())
}

// The outer caller hands over what it likes to an exported function.
fn push_parameters(
    rules: &mut Items<Rule>,
    function: FunId,
    row: &FunctionRow,
) -> Result<(), NoMemory>
    ensures { OnOk result (rules.new ≡ rules.old ++ parameter_rules function row.now.entry row.now.parameters) }
{
    for parameter in 0..row.parameters {
        rules.push(Rule::Meet {
            one: Row::Exp,
            other: Row::IsFunction(function),
            fact: Fact {
                row: Row::Loc(row.entry, Local(parameter)),
                node: NodeName::Src(function, parameter),
            },
        })?;
    }
    Ok(())
}

fn push_functions(rules: &mut Items<Rule>, functions: &[FunctionRow]) -> Result<(), NoMemory>
    requires { length functions.now < 2 ^ 32 }
    ensures { OnOk result (rules.new ≡ rules.old ++ function_rules 0 functions.now) }
{
    for (function, row) in functions.iter().enumerate() {
        push_parameters(rules, FunId(function as u32), row)?;
    }
    Ok(())
}

fn push_exports(rules: &mut Items<Rule>, functions: &[FunctionRow]) -> Result<(), NoMemory>
    requires { length functions.now < 2 ^ 32 }
    ensures { OnOk result (rules.new ≡ rules.old ++ export_rules functions.now) }
{
    rules.push(Rule::Property {
        from: Row::Cell(CellId(0)),
        column: Column(0),
        to: Row::Exp,
    })?;
    rules.push(Rule::Fields {
        from: Row::Exp,
        to: Row::Exp,
    })?;
    push_functions(rules, functions)
}

/// The rules of the code.
pub fn rules_of(alloc: Global, code: &Code) -> Result<Items<Rule>, NoMemory>
    requires lines { length code.now.lines < 2 ^ 31 }
    requires functions { length code.now.functions < 2 ^ 32 }
    requires shared { length code.now.shared < 2 ^ 32 }
    ensures { IfOk result (λ rules. rules ≡ rules_of code.now) }
{
    let mut rules = Items::create(alloc);
    push_shared(&mut rules, code.shared.as_slice())?;
    push_statements(&mut rules, code.lines.as_slice())?;
    push_exports(&mut rules, code.functions.as_slice())?;
    rules.push(Rule::Versions)?;
    Ok(rules)
}
