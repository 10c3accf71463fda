//! The lines of whole functions (13, 14.1).

ghost use Rattle.std.specs.Prelude.{◌≡◌, ◌+◌, [], ◌∷◌, Some, None, OnOk, IfOk, map, codes};
ghost use Rattle.mdg_lower.specs.Statements as statements;
ghost use Rattle.mdg_lower.specs.Labels as labels;
ghost use Rattle.mdg_lower.specs.Builder.{Emits};
ghost use Rattle.mdg_lower.specs.Tables as lowerings;
ghost use Rattle.mdg_lower.specs.Forms as forms;
ghost use Rattle.mdg_lower.specs.Trees as trees;
ghost use Rattle.mdg_lower.specs.Lookup as lookup;

use crate::builder::{here, resolve_labels};
use crate::draft::DraftLine;
use crate::instruction::{copy, function_value, object, push_statement, set_to, store_name};
use crate::lookup::{increment, meaning, temp};
use crate::reference::keyword_at;
use crate::scope::{Meaning, Scope};
use crate::statement::body;
use crate::statement::leaf::return_undefined;
use mdg_base::{Local, NoMemory, Text};
use mdg_code::Statement;
use mdg_scope::BoundFunction;
use mdg_tree::{At, Function, Stmt};
use std::alloc::Global;

/// A declared function is made, and its name becomes it.
#[tactic(auto, using(crate::proofs::Growth::growth), unfolding(crate::specs::Statements::hoisted_as))]
fn hoisted_as<'a>(
    lines: &mut Vec<DraftLine>,
    scope: &Scope<'a>,
    at: At,
    name: &str,
) -> Result<(), NoMemory>
    ensures { OnOk result (Emits (statements.hoisted_as scope.now at name.now) lines.old.items lines.new.items) }
{
    function_value(lines, scope, at, at, 0)?;
    store_name(lines, scope, at, name, temp(scope, 0)?)
}

#[tactic(auto, using(crate::proofs::Growth::growth))]
fn hoisted_function<'a>(
    lines: &mut Vec<DraftLine>,
    scope: &Scope<'a>,
    function: &Function,
) -> Result<(), NoMemory>
    ensures { OnOk result (Emits
        (statements.hoisted_function scope.now (forms.keyword_at function.now) function.now.name)
        lines.old.items lines.new.items) }
{
    match &function.name {
        Some(name) => hoisted_as(lines, scope, keyword_at(function), name.as_str()),
        None => Ok(()),
    }
}

/// What stands at the start of a function for the statement.
#[tactic(auto, using(crate::proofs::Growth::growth, crate::proofs::FormRulesets::hoists))]
fn hoisted<'a>(lines: &mut Vec<DraftLine>, scope: &Scope<'a>, tree: &Stmt) -> Result<(), NoMemory>
    ensures { OnOk result (Emits (trees.hoisted_of tree.now scope.now) lines.old.items lines.new.items) }
{
    match tree {
        Stmt::FunctionDeclaration(function) => hoisted_function(lines, scope, function),
        Stmt::Block(..)
        | Stmt::Var(..)
        | Stmt::Empty(..)
        | Stmt::Expression(..)
        | Stmt::If(..)
        | Stmt::IfElse(..)
        | Stmt::DoWhile(..)
        | Stmt::While(..)
        | Stmt::For(..)
        | Stmt::ForIn(..)
        | Stmt::Continue(..)
        | Stmt::Break(..)
        | Stmt::Return(..)
        | Stmt::ReturnValue(..)
        | Stmt::Throw(..) => Ok(()),
    }
}

/// The functions that a body declares (10.5).
fn all_hoisted<'a>(
    lines: &mut Vec<DraftLine>,
    scope: &Scope<'a>,
    all: &[Stmt],
) -> Result<(), NoMemory>
    ensures { OnOk result (Emits (trees.hoisted_lines all.now scope.now) lines.old.items lines.new.items) }
{
    for one in all {
        hoisted(lines, scope, one)?;
    }
    Ok(())
}

/// The statements of a body. A jump that no loop encloses goes after them.
#[tactic(auto, using(crate::proofs::LoopLemmas::closings))]
fn closed_body<'a>(
    lines: &mut Vec<DraftLine>,
    scope: &Scope<'a>,
    alloc: Global,
    all: &[Stmt],
) -> Result<(), NoMemory>
    ensures { OnOk result (Emits (labels.closed (trees.body_lines all.now scope.now)) lines.old.items lines.new.items) }
{
    let start = here(lines)?;
    body(lines, scope, alloc, all)?;
    let end = here(lines)?;
    resolve_labels(lines, start, end, end)
}

/// What stands between the start and the end of a function.
#[tactic(auto, using(crate::proofs::Growth::growth), unfolding(crate::specs::Tables::inner_lines))]
fn inner_lines<'a>(
    lines: &mut Vec<DraftLine>,
    scope: &Scope<'a>,
    alloc: Global,
    all: &[Stmt],
) -> Result<(), NoMemory>
    ensures { OnOk result (Emits (lowerings.inner_lines scope.now all.now) lines.old.items lines.new.items) }
{
    all_hoisted(lines, scope, all)?;
    closed_body(lines, scope, alloc, all)
}

/// A parameter that is a cell is stored into it.
#[tactic(auto, using(crate::proofs::Growth::growth))]
fn parameter<'a>(
    lines: &mut Vec<DraftLine>,
    scope: &Scope<'a>,
    at: At,
    number: u32,
    name: &str,
) -> Result<(), NoMemory>
    ensures { OnOk result (Emits
        (statements.parameter_by scope.now at number (lookup.meaning scope.now name.now))
        lines.old.items lines.new.items) }
{
    match meaning(scope, name)? {
        Meaning::Cell(cell, _) => {
            let value = Local(number);
            push_statement(lines, scope, at, Statement::SetCell { cell, value })
        }
        Meaning::Local(..)
        | Meaning::Require
        | Meaning::Literal
        | Meaning::Global
        | Meaning::Nothing => Ok(()),
    }
}

fn parameters<'a>(
    lines: &mut Vec<DraftLine>,
    scope: &Scope<'a>,
    at: At,
    all: &[Text],
) -> Result<(), NoMemory>
    ensures { OnOk result (Emits (statements.parameters_from scope.now at all.now 0) lines.old.items lines.new.items) }
{
    let mut number = 0;
    for one in all {
        parameter(lines, scope, at, number, one.as_str())?;
        number = increment(number)?;
    }
    Ok(())
}

/// The name becomes the first temporary, be it the function's own or not.
#[tactic(auto, using(crate::proofs::Growth::growth))]
fn initialise_name<'a>(
    lines: &mut Vec<DraftLine>,
    scope: &Scope<'a>,
    at: At,
    name: &str,
) -> Result<(), NoMemory>
    ensures { OnOk result (Emits
        (statements.initialise_by scope.now at (lookup.meaning scope.now name.now))
        lines.old.items lines.new.items) }
{
    let value = temp(scope, 0)?;
    match meaning(scope, name)? {
        Meaning::Local(into, _) => copy(lines, scope, at, into, value),
        Meaning::Cell(cell, _) => push_statement(
            lines,
            scope,
            at,
            Statement::SetCell { cell, value },
        ),
        Meaning::Require | Meaning::Literal | Meaning::Global | Meaning::Nothing => Ok(()),
    }
}

/// A function expression's own name is the function that runs (13).
#[tactic(auto, using(crate::proofs::Growth::growth), unfolding(crate::specs::Statements::own_named))]
fn own_named<'a>(
    lines: &mut Vec<DraftLine>,
    scope: &Scope<'a>,
    at: At,
    name: &str,
) -> Result<(), NoMemory>
    ensures { OnOk result (Emits (statements.own_named scope.now at name.now) lines.old.items lines.new.items) }
{
    push_statement(
        lines,
        scope,
        at,
        Statement::Own {
            into: temp(scope, 0)?,
        },
    )?;
    initialise_name(lines, scope, at, name)
}

#[tactic(auto, using(crate::proofs::Growth::growth))]
fn own_start<'a>(
    lines: &mut Vec<DraftLine>,
    scope: &Scope<'a>,
    at: At,
    is_used: bool,
    name: &Option<Text>,
) -> Result<(), NoMemory>
    ensures { OnOk result (Emits (statements.own_start scope.now at is_used name.now) lines.old.items lines.new.items) }
{
    match name {
        Some(name) if is_used => own_named(lines, scope, at, name.as_str()),
        Some(_) | None => Ok(()),
    }
}

/// The start of a function.
#[tactic(auto, using(crate::proofs::Growth::growth), unfolding(crate::specs::Statements::function_start))]
fn function_start<'a>(
    lines: &mut Vec<DraftLine>,
    scope: &Scope<'a>,
    at: At,
    function: &BoundFunction,
) -> Result<(), NoMemory>
    ensures { OnOk result (Emits
        (statements.function_start scope.now at function.now.parameters function.now.own_name function.now.name)
        lines.old.items lines.new.items) }
{
    parameters(lines, scope, at, function.parameters.as_slice())?;
    own_start(lines, scope, at, function.own_name, &function.name)
}

/// The start of a file's body: its module object with its exports.
#[tactic(auto, using(crate::proofs::Growth::growth), unfolding(crate::specs::Statements::body_start))]
fn body_start<'a>(
    lines: &mut Vec<DraftLine>,
    scope: &Scope<'a>,
    alloc: Global,
    at: At,
) -> Result<(), NoMemory>
    ensures { OnOk result (Emits (statements.body_start scope.now at) lines.old.items lines.new.items) }
{
    object(lines, scope, at, 0)?;
    object(lines, scope, at, 1)?;
    let module = temp(scope, 0)?;
    let exports = temp(scope, 1)?;
    set_to(lines, scope, alloc, at, module, "exports", exports)?;
    push_statement(
        lines,
        scope,
        at,
        Statement::SetCell {
            cell: scope.module,
            value: module,
        },
    )?;
    store_name(lines, scope, at, "module", module)?;
    store_name(lines, scope, at, "exports", exports)
}

/// The lines of a function that was entered.
#[tactic(auto, using(crate::proofs::Growth::growth), unfolding(crate::specs::Tables::function_lines))]
pub fn function_lines<'a>(
    lines: &mut Vec<DraftLine>,
    scope: &Scope<'a>,
    alloc: Global,
    function: &BoundFunction,
    tree: &Function,
) -> Result<(), NoMemory>
    ensures { OnOk result (Emits
        (lowerings.function_lines scope.now function.now tree.now)
        lines.old.items lines.new.items) }
{
    let at = keyword_at(tree);
    function_start(lines, scope, at, function)?;
    inner_lines(lines, scope, alloc, tree.body.as_slice())?;
    return_undefined(lines, scope, alloc, at)
}

/// The lines of the body of a file.
#[tactic(auto, using(crate::proofs::Growth::growth), unfolding(crate::specs::Tables::file_lines))]
pub fn file_lines<'a>(
    lines: &mut Vec<DraftLine>,
    scope: &Scope<'a>,
    alloc: Global,
    at: At,
    items: &[Stmt],
) -> Result<(), NoMemory>
    ensures { OnOk result (Emits (lowerings.file_lines scope.now at items.now) lines.old.items lines.new.items) }
{
    body_start(lines, scope, alloc, at)?;
    inner_lines(lines, scope, alloc, items)?;
    return_undefined(lines, scope, alloc, at)
}
