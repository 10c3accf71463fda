//! Properties and calls (11.2).

ghost use Rattle.std.specs.Prelude.{◌≡◌, ◌+◌, [], ◌∷◌, Some, None, OnOk, IfOk, map};
ghost use Rattle.mdg_lower.specs.Builder.{Emits};
ghost use Rattle.mdg_lower.specs.Forms as forms;
ghost use Rattle.mdg_lower.specs.Trees as trees;
ghost use Rattle.mdg_lower.specs.Lookup as lookup;
ghost use Rattle.mdg_lower.specs.Access as access;

use crate::assigned::stable_local;
use crate::draft::DraftLine;
use crate::expression::operand::{emit_call, lower_base, lower_key};
use crate::expression::value;
use crate::instruction::{get_at_from, get_from, require};
use crate::lookup::meaning;
use crate::reference::{Reference, key_of, reference_of};
use crate::scope::{Meaning, Scope};
use mdg_base::NoMemory;
use mdg_tree::{At, Expr};
use std::alloc::Global;

/// `e.p`.
#[cycle(expression)]
#[tactic(auto, using(crate::proofs::Growth::growth), unfolding(crate::specs::Access::get))]
pub fn member<'a>(
    lines: &mut Vec<DraftLine>,
    scope: &Scope<'a>,
    alloc: Global,
    at: At,
    object: &Expr,
    name: &str,
    dest: u32,
) -> Result<(), NoMemory>
    ensures { OnOk result (Emits
        (access.get scope.now at (trees.operand_of object.now) name.now dest)
        lines.old.items lines.new.items) }
{
    let stable = stable_local(scope, object, None, None, &[])?;
    let (of, _) = lower_base(lines, scope, alloc, stable, object, dest)?;
    get_from(lines, scope, alloc, at, dest, of, name)
}

/// `e[k]`.
#[cycle(expression)]
#[tactic(auto, using(crate::proofs::Growth::growth), unfolding(crate::specs::Access::get_at))]
fn keyed<'a>(
    lines: &mut Vec<DraftLine>,
    scope: &Scope<'a>,
    alloc: Global,
    at: At,
    object: &Expr,
    key: &Expr,
    dest: u32,
) -> Result<(), NoMemory>
    ensures { OnOk result (Emits
        (access.get_at scope.now at (trees.operand_of object.now) (trees.operand_of key.now) dest)
        lines.old.items lines.new.items) }
{
    let stable = stable_local(scope, object, Some(key), None, &[])?;
    let (of, next) = lower_base(lines, scope, alloc, stable, object, dest)?;
    lower_key(lines, scope, alloc, at, key, next)?;
    get_at_from(lines, scope, at, dest, of, next)
}

/// `e[k]`, whose key may be a property name that is spelled.
#[cycle(expression)]
pub fn index<'a>(
    lines: &mut Vec<DraftLine>,
    scope: &Scope<'a>,
    alloc: Global,
    at: At,
    object: &Expr,
    key: &Expr,
    dest: u32,
) -> Result<(), NoMemory>
    ensures { OnOk result (Emits
        (forms.index_value scope.now at (trees.key_of key.now) (trees.operand_of object.now) (trees.operand_of key.now)
        dest)
        lines.old.items lines.new.items) }
{
    match key_of(key) {
        Some(name) => member(lines, scope, alloc, at, object, name.as_str(), dest),
        None => keyed(lines, scope, alloc, at, object, key, dest),
    }
}

/// `e.p(a)`.
#[cycle(expression)]
#[tactic(auto, using(crate::proofs::Growth::growth), unfolding(crate::specs::Access::method))]
fn method<'a>(
    lines: &mut Vec<DraftLine>,
    scope: &Scope<'a>,
    alloc: Global,
    at: At,
    object: &Expr,
    name: &str,
    all: &[Expr],
    dest: u32,
) -> Result<(), NoMemory>
    ensures { OnOk result (Emits
        (access.method scope.now at (trees.operand_of object.now) name.now (trees.operands_of all.now) dest)
        lines.old.items lines.new.items) }
{
    let stable = stable_local(scope, object, None, None, all)?;
    let (of, callee) = lower_base(lines, scope, alloc, stable, object, dest)?;
    get_from(lines, scope, alloc, at, callee, of, name)?;
    emit_call(lines, scope, alloc, at, Some(of), callee, all, dest)
}

/// `e[k](a)`.
#[cycle(expression)]
#[tactic(auto, using(crate::proofs::Growth::growth), unfolding(crate::specs::Access::method_at))]
fn method_at<'a>(
    lines: &mut Vec<DraftLine>,
    scope: &Scope<'a>,
    alloc: Global,
    at: At,
    object: &Expr,
    key: &Expr,
    all: &[Expr],
    dest: u32,
) -> Result<(), NoMemory>
    ensures { OnOk result (Emits
        (access.method_at scope.now at (trees.operand_of object.now) (trees.operand_of key.now)
        (trees.operands_of all.now) dest)
        lines.old.items lines.new.items) }
{
    let stable = stable_local(scope, object, Some(key), None, all)?;
    let (of, callee) = lower_base(lines, scope, alloc, stable, object, dest)?;
    lower_key(lines, scope, alloc, at, key, callee)?;
    get_at_from(lines, scope, at, callee, of, callee)?;
    emit_call(lines, scope, alloc, at, Some(of), callee, all, dest)
}

/// `f(a)` and `new f(a)`.
#[cycle(expression)]
#[tactic(auto, using(crate::proofs::Growth::growth), unfolding(crate::specs::Access::plain_call))]
pub fn plain_call<'a>(
    lines: &mut Vec<DraftLine>,
    scope: &Scope<'a>,
    alloc: Global,
    at: At,
    callee: &Expr,
    all: &[Expr],
    dest: u32,
) -> Result<(), NoMemory>
    ensures { OnOk result (Emits
        (access.plain_call scope.now at (trees.operand_of callee.now) (trees.operands_of all.now) dest)
        lines.old.items lines.new.items) }
{
    value(lines, scope, alloc, callee, dest)?;
    emit_call(lines, scope, alloc, at, None, dest, all, dest)
}

/// A call of a name, which may be `require`.
#[cycle(expression)]
fn named_call<'a>(
    lines: &mut Vec<DraftLine>,
    scope: &Scope<'a>,
    alloc: Global,
    at: At,
    name_at: At,
    name: &str,
    callee: &Expr,
    all: &[Expr],
    dest: u32,
) -> Result<(), NoMemory>
    ensures { OnOk result (Emits
        (access.named_call scope.now at (lookup.meaning scope.now name.now) name_at.offset (trees.operand_of callee.now)
        (trees.operands_of all.now) dest)
        lines.old.items lines.new.items) }
{
    match meaning(scope, name)? {
        Meaning::Require => require(lines, scope, alloc, at, name_at.offset, dest),
        Meaning::Local(..)
        | Meaning::Cell(..)
        | Meaning::Literal
        | Meaning::Global
        | Meaning::Nothing => plain_call(lines, scope, alloc, at, callee, all, dest),
    }
}

/// A call, by the reference that is its callee.
#[cycle(expression)]
pub fn call<'a>(
    lines: &mut Vec<DraftLine>,
    scope: &Scope<'a>,
    alloc: Global,
    at: At,
    callee: &Expr,
    all: &[Expr],
    dest: u32,
) -> Result<(), NoMemory>
    ensures { OnOk result (Emits
        (access.call_of scope.now at (trees.reference_of callee.now) (trees.operand_of callee.now)
        (trees.operands_of all.now) dest)
        lines.old.items lines.new.items) }
{
    match reference_of(callee) {
        Reference::Named(name_at, name) => named_call(
            lines,
            scope,
            alloc,
            at,
            name_at,
            name.as_str(),
            callee,
            all,
            dest,
        ),
        Reference::Member(object, name) => method(
            lines,
            scope,
            alloc,
            at,
            object,
            name.as_str(),
            all,
            dest,
        ),
        Reference::Keyed(object, key) => method_at(lines, scope, alloc, at, object, key, all, dest),
        Reference::Other => plain_call(lines, scope, alloc, at, callee, all, dest),
    }
}
