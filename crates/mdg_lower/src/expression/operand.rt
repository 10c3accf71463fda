//! The operands of a form: the base of a property, a computed key, and arguments.

ghost use Rattle.std.specs.Prelude.{◌≡◌, ◌+◌, [], ◌∷◌, Some, None, OnOk, IfOk, map};
ghost use Rattle.mdg_lower.specs.Builder.{Emits};
ghost use Rattle.mdg_lower.specs.Trees as trees;
ghost use Rattle.mdg_lower.specs.Access as access;
ghost use Rattle.mdg_lower.specs.Operators as operators;

use crate::builder::{here, patch_over, reserve_branch};
use crate::draft::DraftLine;
use crate::expression::value;
use crate::instruction::{literal, operate_on, push_statement, set_at_to, set_to};
use crate::lookup::{increment, temp};
use crate::scope::Scope;
use mdg_base::{Items, Local, NoMemory};
use mdg_code::Statement;
use mdg_tree::{At, Expr};
use std::alloc::Global;

/// The base of a property, and the first temporary after it. A base for which a local stands has no lines.
#[cycle(expression)]
#[tactic(auto, using(crate::proofs::Growth::growth))]
pub fn lower_base<'a>(
    lines: &mut Vec<DraftLine>,
    scope: &Scope<'a>,
    alloc: Global,
    stable: Option<Local>,
    tree: &Expr,
    dest: u32,
) -> Result<(Local, u32), NoMemory>
    ensures emits { OnOk result (Emits
        (access.lower_base scope.now stable (trees.operand_of tree.now) dest)
        lines.old.items lines.new.items) }
    ensures local { IfOk result (λ r. r.0 ≡ access.base_local scope.now stable dest) }
    ensures next { IfOk result (λ r. r.1 ≡ access.after_base scope.now stable dest) }
{
    match stable {
        Some(local) => Ok((local, dest)),
        None => {
            value(lines, scope, alloc, tree, dest)?;
            Ok((temp(scope, dest)?, increment(dest)?))
        }
    }
}

/// A computed key.
#[cycle(expression)]
#[tactic(auto, using(crate::proofs::Growth::growth), unfolding(crate::specs::Access::lower_key))]
pub fn lower_key<'a>(
    lines: &mut Vec<DraftLine>,
    scope: &Scope<'a>,
    alloc: Global,
    at: At,
    key: &Expr,
    dest: u32,
) -> Result<(), NoMemory>
    ensures { OnOk result (Emits
        (access.lower_key scope.now at (trees.operand_of key.now) dest)
        lines.old.items lines.new.items) }
{
    value(lines, scope, alloc, key, dest)?;
    operate_on(lines, scope, alloc, at, dest)
}

/// The values of these, one after another, and their temporaries.
#[cycle(expression)]
fn arguments<'a>(
    lines: &mut Vec<DraftLine>,
    scope: &Scope<'a>,
    alloc: Global,
    all: &[Expr],
    dest: u32,
) -> Result<Items<Local>, NoMemory>
    ensures emits { OnOk result (Emits
        (access.arguments scope.now (trees.operands_of all.now) dest)
        lines.old.items lines.new.items) }
    ensures temps { IfOk result (λ made. made ≡ access.temps scope.now (trees.operands_of all.now) dest) }
{
    let mut made = Items::create(alloc);
    let mut next = dest;
    for one in all {
        value(lines, scope, alloc, one, next)?;
        made.push(temp(scope, next)?)?;
        next = increment(next)?;
    }
    Ok(made)
}

/// The arguments, the call and its land.
#[cycle(expression)]
#[tactic(auto, using(crate::proofs::Growth::growth), unfolding(crate::specs::Access::emit_call))]
pub fn emit_call<'a>(
    lines: &mut Vec<DraftLine>,
    scope: &Scope<'a>,
    alloc: Global,
    at: At,
    receiver: Option<Local>,
    callee: u32,
    all: &[Expr],
    dest: u32,
) -> Result<(), NoMemory>
    ensures { OnOk result (Emits
        (access.emit_call scope.now at receiver callee (trees.operands_of all.now) dest)
        lines.old.items lines.new.items) }
{
    let first = increment(callee)?;
    let arguments = arguments(lines, scope, alloc, all, first)?;
    push_statement(
        lines,
        scope,
        at,
        Statement::Call {
            into: temp(scope, dest)?,
            callee: temp(scope, callee)?,
            receiver,
            arguments,
        },
    )?;
    push_statement(lines, scope, at, Statement::Land)
}

/// A value that a branch may leave out.
#[cycle(expression)]
#[tactic(auto, using(crate::proofs::Growth::growth, crate::proofs::Patches::patches))]
pub fn emit_optional<'a>(
    lines: &mut Vec<DraftLine>,
    scope: &Scope<'a>,
    alloc: Global,
    at: At,
    tree: &Expr,
    dest: u32,
) -> Result<(), NoMemory>
    ensures { OnOk result (Emits
        (operators.emit_optional scope.now at ((trees.operand_of tree.now).value scope.now dest))
        lines.old.items lines.new.items) }
{
    let from = here(lines)?;
    reserve_branch(lines, scope, at)?;
    value(lines, scope, alloc, tree, dest)?;
    patch_over(lines, scope, at, from)
}

/// A property with a static name becomes `undefined`.
#[tactic(auto, using(crate::proofs::Growth::growth), unfolding(crate::specs::Operators::removal))]
fn removal<'a>(
    lines: &mut Vec<DraftLine>,
    scope: &Scope<'a>,
    alloc: Global,
    at: At,
    of: Local,
    name: &str,
    dest: u32,
) -> Result<(), NoMemory>
    ensures { OnOk result (Emits (operators.removal scope.now at of name.now dest) lines.old.items lines.new.items) }
{
    literal(lines, scope, alloc, at, "undefined", dest)?;
    set_to(lines, scope, alloc, at, of, name, temp(scope, dest)?)
}

/// A property with a static name that may become `undefined`.
#[tactic(auto, using(crate::proofs::Growth::growth, crate::proofs::Patches::patches))]
pub fn remove_member<'a>(
    lines: &mut Vec<DraftLine>,
    scope: &Scope<'a>,
    alloc: Global,
    at: At,
    of: Local,
    name: &str,
    dest: u32,
) -> Result<(), NoMemory>
    ensures { OnOk result (Emits
        (operators.emit_optional scope.now at (operators.removal scope.now at of name.now dest))
        lines.old.items lines.new.items) }
{
    let from = here(lines)?;
    reserve_branch(lines, scope, at)?;
    removal(lines, scope, alloc, at, of, name, dest)?;
    patch_over(lines, scope, at, from)
}

/// A property with a computed name becomes `undefined`.
#[tactic(auto, using(crate::proofs::Growth::growth), unfolding(crate::specs::Operators::keyed_removal))]
fn keyed_removal<'a>(
    lines: &mut Vec<DraftLine>,
    scope: &Scope<'a>,
    alloc: Global,
    at: At,
    of: Local,
    key: u32,
    dest: u32,
) -> Result<(), NoMemory>
    ensures { OnOk result (Emits (operators.keyed_removal scope.now at of key dest) lines.old.items lines.new.items) }
{
    literal(lines, scope, alloc, at, "undefined", dest)?;
    set_at_to(lines, scope, at, of, key, temp(scope, dest)?)
}

/// A property with a computed name that may become `undefined`.
#[tactic(auto, using(crate::proofs::Growth::growth, crate::proofs::Patches::patches))]
pub fn remove_keyed<'a>(
    lines: &mut Vec<DraftLine>,
    scope: &Scope<'a>,
    alloc: Global,
    at: At,
    of: Local,
    key: u32,
    dest: u32,
) -> Result<(), NoMemory>
    ensures { OnOk result (Emits
        (operators.emit_optional scope.now at (operators.keyed_removal scope.now at of key dest))
        lines.old.items lines.new.items) }
{
    let from = here(lines)?;
    reserve_branch(lines, scope, at)?;
    keyed_removal(lines, scope, alloc, at, of, key, dest)?;
    patch_over(lines, scope, at, from)
}
