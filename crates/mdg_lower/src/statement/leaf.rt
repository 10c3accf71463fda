//! Statements that have no statements in them (12).

ghost use Rattle.std.specs.Prelude.{◌≡◌, ◌+◌, [], ◌∷◌, Some, None, OnOk, IfOk, map, option_map};
ghost use Rattle.mdg_lower.specs.Statements as statements;
ghost use Rattle.mdg_lower.specs.Builder.{Emits, nothing};
ghost use Rattle.mdg_lower.specs.Trees as trees;

use crate::assigned::stable_local;
use crate::builder::jump;
use crate::draft::{DraftLine, Label};
use crate::expression::{lower_base, lower_key, value};
use crate::instruction::{literal, push_statement, set_at_to, set_to, store_name};
use crate::lookup::temp;
use crate::reference::{Reference, at_of, reference_of};
use crate::scope::Scope;
use mdg_base::NoMemory;
use mdg_code::Statement;
use mdg_tree::{At, Declaration, Expr, Goal, Init};
use std::alloc::Global;

/// An expression statement (12.4).
#[tactic(auto, unfolding(crate::specs::Statements::expression))]
pub fn expression<'a>(
    lines: &mut Vec<DraftLine>,
    scope: &Scope<'a>,
    alloc: Global,
    tree: &Expr,
) -> Result<(), NoMemory>
    ensures { OnOk result (Emits
        (statements.expression scope.now (trees.operand_of tree.now))
        lines.old.items lines.new.items) }
{
    value(lines, scope, alloc, tree, 0)
}

/// A value that may be absent.
#[tactic(auto, using(crate::proofs::Growth::growth))]
pub fn optional<'a>(
    lines: &mut Vec<DraftLine>,
    scope: &Scope<'a>,
    alloc: Global,
    tree: &Option<Expr>,
) -> Result<(), NoMemory>
    ensures { OnOk result (Emits
        (statements.optional scope.now (option_map (λ e. trees.operand_of e) tree.now) 0)
        lines.old.items lines.new.items) }
{
    match tree {
        Some(tree) => value(lines, scope, alloc, tree, 0),
        None => Ok(()),
    }
}

/// `n = e` of a `var` (12.2).
#[tactic(auto, using(crate::proofs::Growth::growth), unfolding(crate::specs::Statements::declared))]
fn declared<'a>(
    lines: &mut Vec<DraftLine>,
    scope: &Scope<'a>,
    alloc: Global,
    at: At,
    name: &str,
    tree: &Expr,
) -> Result<(), NoMemory>
    ensures { OnOk result (Emits
        (statements.declared scope.now at name.now (trees.operand_of tree.now))
        lines.old.items lines.new.items) }
{
    value(lines, scope, alloc, tree, 0)?;
    store_name(lines, scope, at, name, temp(scope, 0)?)
}

#[tactic(auto, using(crate::proofs::Growth::growth, crate::proofs::FormRulesets::declared))]
fn declaration<'a>(
    lines: &mut Vec<DraftLine>,
    scope: &Scope<'a>,
    alloc: Global,
    at: At,
    one: &Declaration,
) -> Result<(), NoMemory>
    ensures { OnOk result (Emits
        (statements.declaration scope.now at (trees.declaration_part one.now).name
        (trees.declaration_part one.now).value)
        lines.old.items lines.new.items) }
{
    match &one.value {
        Some(tree) => declared(lines, scope, alloc, at, one.name.as_str(), tree),
        None => Ok(()),
    }
}

/// The names of a `var`.
pub fn declarations<'a>(
    lines: &mut Vec<DraftLine>,
    scope: &Scope<'a>,
    alloc: Global,
    at: At,
    all: &[Declaration],
) -> Result<(), NoMemory>
    ensures { OnOk result (Emits
        (statements.declarations scope.now at (map trees.declaration_part all.now))
        lines.old.items lines.new.items) }
{
    for one in all {
        declaration(lines, scope, alloc, at, one)?;
    }
    Ok(())
}

/// What a `for` begins with (12.6.3).
#[tactic(auto, using(crate::proofs::Growth::growth, crate::proofs::FormRulesets::inits))]
pub fn init<'a>(
    lines: &mut Vec<DraftLine>,
    scope: &Scope<'a>,
    alloc: Global,
    tree: &Init,
) -> Result<(), NoMemory>
    ensures { OnOk result (Emits (trees.init_lines tree.now scope.now) lines.old.items lines.new.items) }
{
    match tree {
        Init::Absent => Ok(()),
        Init::Declarations(at, all) => declarations(lines, scope, alloc, *at, all.as_slice()),
        Init::Initial(tree) => expression(lines, scope, alloc, tree),
    }
}

/// A property with a static name as the target of a `for` with `in`.
#[tactic(auto, using(crate::proofs::Growth::growth), unfolding(crate::specs::Statements::goal_member))]
fn goal_member<'a>(
    lines: &mut Vec<DraftLine>,
    scope: &Scope<'a>,
    alloc: Global,
    at: At,
    object: &Expr,
    name: &str,
) -> Result<(), NoMemory>
    ensures { OnOk result (Emits
        (statements.goal_member scope.now at (trees.operand_of object.now) name.now)
        lines.old.items lines.new.items) }
{
    let stable = stable_local(scope, object, None, None, &[])?;
    let (of, _) = lower_base(lines, scope, alloc, stable, object, 1)?;
    set_to(lines, scope, alloc, at, of, name, temp(scope, 0)?)
}

/// A property with a computed name as the target of a `for` with `in`.
#[tactic(auto, using(crate::proofs::Growth::growth), unfolding(crate::specs::Statements::goal_keyed))]
fn goal_keyed<'a>(
    lines: &mut Vec<DraftLine>,
    scope: &Scope<'a>,
    alloc: Global,
    at: At,
    object: &Expr,
    key: &Expr,
) -> Result<(), NoMemory>
    ensures { OnOk result (Emits
        (statements.goal_keyed scope.now at (trees.operand_of object.now) (trees.operand_of key.now))
        lines.old.items lines.new.items) }
{
    let stable = stable_local(scope, object, Some(key), None, &[])?;
    let (of, next) = lower_base(lines, scope, alloc, stable, object, 1)?;
    lower_key(lines, scope, alloc, at, key, next)?;
    set_at_to(lines, scope, at, of, next, temp(scope, 0)?)
}

/// A name as the target of a `for` with `in`.
#[tactic(auto, unfolding(crate::specs::Statements::store_goal))]
fn store_goal<'a>(
    lines: &mut Vec<DraftLine>,
    scope: &Scope<'a>,
    at: At,
    name: &str,
) -> Result<(), NoMemory>
    ensures { OnOk result (Emits (statements.store_goal scope.now at name.now) lines.old.items lines.new.items) }
{
    store_name(lines, scope, at, name, temp(scope, 0)?)
}

#[tactic(auto, using(crate::proofs::Growth::growth))]
fn goal_target<'a>(
    lines: &mut Vec<DraftLine>,
    scope: &Scope<'a>,
    alloc: Global,
    tree: &Expr,
) -> Result<(), NoMemory>
    ensures { OnOk result (Emits
        (statements.goal_of scope.now (trees.at_of tree.now) (trees.reference_of tree.now))
        lines.old.items lines.new.items) }
{
    let at = at_of(tree);
    match reference_of(tree) {
        Reference::Named(_, name) => store_goal(lines, scope, at, name.as_str()),
        Reference::Member(object, name) => goal_member(
            lines,
            scope,
            alloc,
            at,
            object,
            name.as_str(),
        ),
        Reference::Keyed(object, key) => goal_keyed(lines, scope, alloc, at, object, key),
        Reference::Other => Ok(()),
    }
}

/// What a `for` with `in` assigns to (12.6.4).
#[tactic(auto, using(crate::proofs::FormRulesets::goals))]
pub fn goal<'a>(
    lines: &mut Vec<DraftLine>,
    scope: &Scope<'a>,
    alloc: Global,
    tree: &Goal,
) -> Result<(), NoMemory>
    ensures { OnOk result (Emits (trees.goal_lines tree.now scope.now) lines.old.items lines.new.items) }
{
    match tree {
        Goal::Variable(at, _, name) => store_goal(lines, scope, *at, name.as_str()),
        Goal::Target(tree) => goal_target(lines, scope, alloc, tree),
    }
}

/// `break` and `continue` (12.7, 12.8).
#[tactic(auto, unfolding(crate::specs::Statements::leave))]
pub fn leave<'a>(
    lines: &mut Vec<DraftLine>,
    scope: &Scope<'a>,
    at: At,
    label: Label,
) -> Result<(), NoMemory>
    ensures { OnOk result (Emits (statements.leave scope.now at label) lines.old.items lines.new.items) }
{
    jump(lines, scope, at, label)
}

/// The function ends with the first temporary.
#[tactic(auto, unfolding(crate::specs::Statements::return_temporary))]
fn return_temporary<'a>(
    lines: &mut Vec<DraftLine>,
    scope: &Scope<'a>,
    at: At,
) -> Result<(), NoMemory>
    ensures { OnOk result (Emits (statements.return_temporary scope.now at) lines.old.items lines.new.items) }
{
    push_statement(
        lines,
        scope,
        at,
        Statement::Return {
            value: temp(scope, 0)?,
        },
    )
}

/// `return` with no value, and the end of each function (12.9, 13.2.1).
#[tactic(auto, using(crate::proofs::Growth::growth), unfolding(crate::specs::Statements::return_undefined))]
pub fn return_undefined<'a>(
    lines: &mut Vec<DraftLine>,
    scope: &Scope<'a>,
    alloc: Global,
    at: At,
) -> Result<(), NoMemory>
    ensures { OnOk result (Emits (statements.return_undefined scope.now at) lines.old.items lines.new.items) }
{
    literal(lines, scope, alloc, at, "undefined", 0)?;
    return_temporary(lines, scope, at)
}

/// `return e` (12.9).
#[tactic(auto, using(crate::proofs::Growth::growth), unfolding(crate::specs::Statements::return_value))]
pub fn return_value<'a>(
    lines: &mut Vec<DraftLine>,
    scope: &Scope<'a>,
    alloc: Global,
    at: At,
    tree: &Expr,
) -> Result<(), NoMemory>
    ensures { OnOk result (Emits
        (statements.return_value scope.now at (trees.operand_of tree.now))
        lines.old.items lines.new.items) }
{
    value(lines, scope, alloc, tree, 0)?;
    return_temporary(lines, scope, at)
}

/// `throw e` (12.13).
#[tactic(auto, using(crate::proofs::Growth::growth), unfolding(crate::specs::Statements::throw_value))]
pub fn throw_value<'a>(
    lines: &mut Vec<DraftLine>,
    scope: &Scope<'a>,
    alloc: Global,
    at: At,
    tree: &Expr,
) -> Result<(), NoMemory>
    ensures { OnOk result (Emits
        (statements.throw_value scope.now at (trees.operand_of tree.now))
        lines.old.items lines.new.items) }
{
    value(lines, scope, alloc, tree, 0)?;
    push_statement(
        lines,
        scope,
        at,
        Statement::Throw {
            value: temp(scope, 0)?,
        },
    )
}
