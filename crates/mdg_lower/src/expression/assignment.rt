//! Assignments (11.13), and prefix and postfix operators (11.3, 11.4.4, 11.4.5).

ghost use Rattle.std.specs.Prelude.{◌≡◌, ◌+◌, [], ◌∷◌, Some, None, OnOk, IfOk, map};
ghost use Rattle.mdg_lower.specs.Builder.{Emits};
ghost use Rattle.mdg_lower.specs.Trees as trees;
ghost use Rattle.mdg_lower.specs.Assignments as assignments;

use crate::assigned::stable_local;
use crate::draft::DraftLine;
use crate::expression::operand::{lower_base, lower_key};
use crate::expression::value;
use crate::instruction::{
    copy, get_at_from, get_from, load_name, move_result, operate_on, operate_on_one,
    operate_on_two, set_at_to, set_to, store_name,
};
use crate::lookup::{increment, temp};
use crate::reference::{Reference, reference_of};
use crate::scope::Scope;
use mdg_base::NoMemory;
use mdg_tree::{AssignOperator, At, Expr};
use std::alloc::Global;

/// `n = v`.
#[cycle(expression)]
#[tactic(auto, using(crate::proofs::Growth::growth), unfolding(crate::specs::Assignments::assign_name))]
fn assign_name<'a>(
    lines: &mut Vec<DraftLine>,
    scope: &Scope<'a>,
    alloc: Global,
    at: At,
    name: &str,
    assigned: &Expr,
    dest: u32,
) -> Result<(), NoMemory>
    ensures { OnOk result (Emits
        (assignments.assign_name scope.now at name.now (trees.operand_of assigned.now) dest)
        lines.old.items lines.new.items) }
{
    value(lines, scope, alloc, assigned, dest)?;
    store_name(lines, scope, at, name, temp(scope, dest)?)
}

/// `e.p = v`.
#[cycle(expression)]
#[tactic(auto, using(crate::proofs::Growth::growth), unfolding(crate::specs::Assignments::assign_member))]
fn assign_member<'a>(
    lines: &mut Vec<DraftLine>,
    scope: &Scope<'a>,
    alloc: Global,
    at: At,
    object: &Expr,
    name: &str,
    assigned: &Expr,
    dest: u32,
) -> Result<(), NoMemory>
    ensures { OnOk result (Emits
        (assignments.assign_member scope.now at (trees.operand_of object.now) name.now (trees.operand_of assigned.now)
        dest)
        lines.old.items lines.new.items) }
{
    let stable = stable_local(scope, object, Some(assigned), None, &[])?;
    let (of, next) = lower_base(lines, scope, alloc, stable, object, dest)?;
    value(lines, scope, alloc, assigned, next)?;
    set_to(lines, scope, alloc, at, of, name, temp(scope, next)?)?;
    move_result(lines, scope, at, stable, dest)
}

/// `e[k] = v`.
#[cycle(expression)]
#[tactic(auto, using(crate::proofs::Growth::growth), unfolding(crate::specs::Assignments::assign_keyed))]
fn assign_keyed<'a>(
    lines: &mut Vec<DraftLine>,
    scope: &Scope<'a>,
    alloc: Global,
    at: At,
    object: &Expr,
    key: &Expr,
    assigned: &Expr,
    dest: u32,
) -> Result<(), NoMemory>
    ensures { OnOk result (Emits
        (assignments.assign_keyed scope.now at (trees.operand_of object.now) (trees.operand_of key.now)
        (trees.operand_of assigned.now) dest)
        lines.old.items lines.new.items) }
{
    let stable = stable_local(scope, object, Some(key), Some(assigned), &[])?;
    let (of, next) = lower_base(lines, scope, alloc, stable, object, dest)?;
    lower_key(lines, scope, alloc, at, key, next)?;
    let last = increment(next)?;
    value(lines, scope, alloc, assigned, last)?;
    let made = temp(scope, last)?;
    set_at_to(lines, scope, at, of, next, made)?;
    copy(lines, scope, at, temp(scope, dest)?, made)
}

/// `l = v`.
#[cycle(expression)]
fn assign<'a>(
    lines: &mut Vec<DraftLine>,
    scope: &Scope<'a>,
    alloc: Global,
    at: At,
    target: &Expr,
    assigned: &Expr,
    dest: u32,
) -> Result<(), NoMemory>
    ensures { OnOk result (Emits
        (assignments.assign_of scope.now at (trees.reference_of target.now) (trees.operand_of assigned.now) dest)
        lines.old.items lines.new.items) }
{
    match reference_of(target) {
        Reference::Named(_, name) => assign_name(
            lines,
            scope,
            alloc,
            at,
            name.as_str(),
            assigned,
            dest,
        ),
        Reference::Member(object, name) => assign_member(
            lines,
            scope,
            alloc,
            at,
            object,
            name.as_str(),
            assigned,
            dest,
        ),
        Reference::Keyed(object, key) => assign_keyed(
            lines, scope, alloc, at, object, key, assigned, dest,
        ),
        Reference::Other => value(lines, scope, alloc, assigned, dest),
    }
}

/// `n += v`.
#[cycle(expression)]
#[tactic(auto, using(crate::proofs::Growth::growth), unfolding(crate::specs::Assignments::compound_name))]
fn compound_name<'a>(
    lines: &mut Vec<DraftLine>,
    scope: &Scope<'a>,
    alloc: Global,
    at: At,
    name_at: At,
    name: &str,
    assigned: &Expr,
    dest: u32,
) -> Result<(), NoMemory>
    ensures { OnOk result (Emits
        (assignments.compound_name scope.now at name_at name.now (trees.operand_of assigned.now) dest)
        lines.old.items lines.new.items) }
{
    load_name(lines, scope, alloc, name_at, name, dest)?;
    let next = increment(dest)?;
    value(lines, scope, alloc, assigned, next)?;
    operate_on_two(lines, scope, alloc, at, dest, next)?;
    store_name(lines, scope, at, name, temp(scope, dest)?)
}

/// `e.p += v`.
#[cycle(expression)]
#[tactic(auto, using(crate::proofs::Growth::growth), unfolding(crate::specs::Assignments::compound_member))]
fn compound_member<'a>(
    lines: &mut Vec<DraftLine>,
    scope: &Scope<'a>,
    alloc: Global,
    at: At,
    object: &Expr,
    name: &str,
    assigned: &Expr,
    dest: u32,
) -> Result<(), NoMemory>
    ensures { OnOk result (Emits
        (assignments.compound_member scope.now at (trees.operand_of object.now) name.now (trees.operand_of assigned.now)
        dest)
        lines.old.items lines.new.items) }
{
    let stable = stable_local(scope, object, Some(assigned), None, &[])?;
    let (of, next) = lower_base(lines, scope, alloc, stable, object, dest)?;
    get_from(lines, scope, alloc, at, next, of, name)?;
    let last = increment(next)?;
    value(lines, scope, alloc, assigned, last)?;
    operate_on_two(lines, scope, alloc, at, next, last)?;
    set_to(lines, scope, alloc, at, of, name, temp(scope, next)?)?;
    move_result(lines, scope, at, stable, dest)
}

/// `e[k] += v`.
#[cycle(expression)]
#[tactic(auto, using(crate::proofs::Growth::growth), unfolding(crate::specs::Assignments::compound_keyed))]
fn compound_keyed<'a>(
    lines: &mut Vec<DraftLine>,
    scope: &Scope<'a>,
    alloc: Global,
    at: At,
    object: &Expr,
    key: &Expr,
    assigned: &Expr,
    dest: u32,
) -> Result<(), NoMemory>
    ensures { OnOk result (Emits
        (assignments.compound_keyed scope.now at (trees.operand_of object.now) (trees.operand_of key.now)
        (trees.operand_of assigned.now) dest)
        lines.old.items lines.new.items) }
{
    let stable = stable_local(scope, object, Some(key), Some(assigned), &[])?;
    let (of, next) = lower_base(lines, scope, alloc, stable, object, dest)?;
    lower_key(lines, scope, alloc, at, key, next)?;
    let old = increment(next)?;
    get_at_from(lines, scope, at, old, of, next)?;
    let last = increment(old)?;
    value(lines, scope, alloc, assigned, last)?;
    operate_on_two(lines, scope, alloc, at, old, last)?;
    let made = temp(scope, old)?;
    set_at_to(lines, scope, at, of, next, made)?;
    copy(lines, scope, at, temp(scope, dest)?, made)
}

/// `l += v`.
#[cycle(expression)]
fn compound<'a>(
    lines: &mut Vec<DraftLine>,
    scope: &Scope<'a>,
    alloc: Global,
    at: At,
    target: &Expr,
    assigned: &Expr,
    dest: u32,
) -> Result<(), NoMemory>
    ensures { OnOk result (Emits
        (assignments.compound_of scope.now at (trees.reference_of target.now) (trees.operand_of assigned.now) dest)
        lines.old.items lines.new.items) }
{
    match reference_of(target) {
        Reference::Named(name_at, name) => compound_name(
            lines,
            scope,
            alloc,
            at,
            name_at,
            name.as_str(),
            assigned,
            dest,
        ),
        Reference::Member(object, name) => compound_member(
            lines,
            scope,
            alloc,
            at,
            object,
            name.as_str(),
            assigned,
            dest,
        ),
        Reference::Keyed(object, key) => compound_keyed(
            lines, scope, alloc, at, object, key, assigned, dest,
        ),
        Reference::Other => value(lines, scope, alloc, assigned, dest),
    }
}

/// An assignment.
#[cycle(expression)]
pub fn assignment<'a>(
    lines: &mut Vec<DraftLine>,
    scope: &Scope<'a>,
    alloc: Global,
    at: At,
    operator: AssignOperator,
    target: &Expr,
    assigned: &Expr,
    dest: u32,
) -> Result<(), NoMemory>
    ensures { OnOk result (Emits
        (assignments.assigned_with scope.now at operator (trees.reference_of target.now) (trees.operand_of assigned.now)
        dest)
        lines.old.items lines.new.items) }
{
    match operator {
        AssignOperator::Plain => assign(lines, scope, alloc, at, target, assigned, dest),
        AssignOperator::Add
        | AssignOperator::Subtract
        | AssignOperator::Multiply
        | AssignOperator::Remainder
        | AssignOperator::Divide
        | AssignOperator::ShiftLeft
        | AssignOperator::ShiftRight
        | AssignOperator::ShiftRightUnsigned
        | AssignOperator::BitAnd
        | AssignOperator::BitOr
        | AssignOperator::BitXor => compound(lines, scope, alloc, at, target, assigned, dest),
    }
}

/// `++n`.
#[tactic(auto, using(crate::proofs::Growth::growth), unfolding(crate::specs::Assignments::prefix_name))]
fn prefix_name<'a>(
    lines: &mut Vec<DraftLine>,
    scope: &Scope<'a>,
    alloc: Global,
    at: At,
    name_at: At,
    name: &str,
    dest: u32,
) -> Result<(), NoMemory>
    ensures { OnOk result (Emits
        (assignments.prefix_name scope.now at name_at name.now dest)
        lines.old.items lines.new.items) }
{
    load_name(lines, scope, alloc, name_at, name, dest)?;
    operate_on(lines, scope, alloc, at, dest)?;
    store_name(lines, scope, at, name, temp(scope, dest)?)
}

/// `++e.p`.
#[cycle(expression)]
#[tactic(auto, using(crate::proofs::Growth::growth), unfolding(crate::specs::Assignments::prefix_member))]
fn prefix_member<'a>(
    lines: &mut Vec<DraftLine>,
    scope: &Scope<'a>,
    alloc: Global,
    at: At,
    object: &Expr,
    name: &str,
    dest: u32,
) -> Result<(), NoMemory>
    ensures { OnOk result (Emits
        (assignments.prefix_member scope.now at (trees.operand_of object.now) name.now dest)
        lines.old.items lines.new.items) }
{
    let stable = stable_local(scope, object, None, None, &[])?;
    let (of, next) = lower_base(lines, scope, alloc, stable, object, dest)?;
    get_from(lines, scope, alloc, at, next, of, name)?;
    operate_on(lines, scope, alloc, at, next)?;
    set_to(lines, scope, alloc, at, of, name, temp(scope, next)?)?;
    move_result(lines, scope, at, stable, dest)
}

/// `++e[k]`.
#[cycle(expression)]
#[tactic(auto, using(crate::proofs::Growth::growth), unfolding(crate::specs::Assignments::prefix_keyed))]
fn prefix_keyed<'a>(
    lines: &mut Vec<DraftLine>,
    scope: &Scope<'a>,
    alloc: Global,
    at: At,
    object: &Expr,
    key: &Expr,
    dest: u32,
) -> Result<(), NoMemory>
    ensures { OnOk result (Emits
        (assignments.prefix_keyed scope.now at (trees.operand_of object.now) (trees.operand_of key.now) dest)
        lines.old.items lines.new.items) }
{
    let stable = stable_local(scope, object, Some(key), None, &[])?;
    let (of, next) = lower_base(lines, scope, alloc, stable, object, dest)?;
    lower_key(lines, scope, alloc, at, key, next)?;
    let old = increment(next)?;
    get_at_from(lines, scope, at, old, of, next)?;
    operate_on(lines, scope, alloc, at, old)?;
    let made = temp(scope, old)?;
    set_at_to(lines, scope, at, of, next, made)?;
    copy(lines, scope, at, temp(scope, dest)?, made)
}

/// `++l` and `--l`.
#[cycle(expression)]
pub fn prefix<'a>(
    lines: &mut Vec<DraftLine>,
    scope: &Scope<'a>,
    alloc: Global,
    at: At,
    target: &Expr,
    dest: u32,
) -> Result<(), NoMemory>
    ensures { OnOk result (Emits
        (assignments.prefix_of scope.now at (trees.reference_of target.now) (trees.operand_of target.now) dest)
        lines.old.items lines.new.items) }
{
    match reference_of(target) {
        Reference::Named(name_at, name) => prefix_name(
            lines,
            scope,
            alloc,
            at,
            name_at,
            name.as_str(),
            dest,
        ),
        Reference::Member(object, name) => prefix_member(
            lines,
            scope,
            alloc,
            at,
            object,
            name.as_str(),
            dest,
        ),
        Reference::Keyed(object, key) => prefix_keyed(lines, scope, alloc, at, object, key, dest),
        Reference::Other => value(lines, scope, alloc, target, dest),
    }
}

/// `n++`.
#[tactic(auto, using(crate::proofs::Growth::growth), unfolding(crate::specs::Assignments::postfix_name))]
fn postfix_name<'a>(
    lines: &mut Vec<DraftLine>,
    scope: &Scope<'a>,
    alloc: Global,
    at: At,
    name_at: At,
    name: &str,
    dest: u32,
) -> Result<(), NoMemory>
    ensures { OnOk result (Emits
        (assignments.postfix_name scope.now at name_at name.now dest)
        lines.old.items lines.new.items) }
{
    load_name(lines, scope, alloc, name_at, name, dest)?;
    operate_on(lines, scope, alloc, at, dest)?;
    let next = increment(dest)?;
    operate_on_one(lines, scope, alloc, at, next, dest)?;
    store_name(lines, scope, at, name, temp(scope, next)?)
}

/// `e.p++`.
#[cycle(expression)]
#[tactic(auto, using(crate::proofs::Growth::growth), unfolding(crate::specs::Assignments::postfix_member))]
fn postfix_member<'a>(
    lines: &mut Vec<DraftLine>,
    scope: &Scope<'a>,
    alloc: Global,
    at: At,
    object: &Expr,
    name: &str,
    dest: u32,
) -> Result<(), NoMemory>
    ensures { OnOk result (Emits
        (assignments.postfix_member scope.now at (trees.operand_of object.now) name.now dest)
        lines.old.items lines.new.items) }
{
    let stable = stable_local(scope, object, None, None, &[])?;
    let (of, next) = lower_base(lines, scope, alloc, stable, object, dest)?;
    get_from(lines, scope, alloc, at, next, of, name)?;
    operate_on(lines, scope, alloc, at, next)?;
    let last = increment(next)?;
    operate_on_one(lines, scope, alloc, at, last, next)?;
    set_to(lines, scope, alloc, at, of, name, temp(scope, last)?)?;
    move_result(lines, scope, at, stable, dest)
}

/// `e[k]++`.
#[cycle(expression)]
#[tactic(auto, using(crate::proofs::Growth::growth), unfolding(crate::specs::Assignments::postfix_keyed))]
fn postfix_keyed<'a>(
    lines: &mut Vec<DraftLine>,
    scope: &Scope<'a>,
    alloc: Global,
    at: At,
    object: &Expr,
    key: &Expr,
    dest: u32,
) -> Result<(), NoMemory>
    ensures { OnOk result (Emits
        (assignments.postfix_keyed scope.now at (trees.operand_of object.now) (trees.operand_of key.now) dest)
        lines.old.items lines.new.items) }
{
    let stable = stable_local(scope, object, Some(key), None, &[])?;
    let (of, next) = lower_base(lines, scope, alloc, stable, object, dest)?;
    lower_key(lines, scope, alloc, at, key, next)?;
    let old = increment(next)?;
    get_at_from(lines, scope, at, old, of, next)?;
    operate_on(lines, scope, alloc, at, old)?;
    let last = increment(old)?;
    operate_on_one(lines, scope, alloc, at, last, old)?;
    set_at_to(lines, scope, at, of, next, temp(scope, last)?)?;
    copy(lines, scope, at, temp(scope, dest)?, temp(scope, old)?)
}

/// `l++` and `l--`.
#[cycle(expression)]
pub fn postfix<'a>(
    lines: &mut Vec<DraftLine>,
    scope: &Scope<'a>,
    alloc: Global,
    at: At,
    target: &Expr,
    dest: u32,
) -> Result<(), NoMemory>
    ensures { OnOk result (Emits
        (assignments.postfix_of scope.now at (trees.reference_of target.now) (trees.operand_of target.now) dest)
        lines.old.items lines.new.items) }
{
    match reference_of(target) {
        Reference::Named(name_at, name) => postfix_name(
            lines,
            scope,
            alloc,
            at,
            name_at,
            name.as_str(),
            dest,
        ),
        Reference::Member(object, name) => postfix_member(
            lines,
            scope,
            alloc,
            at,
            object,
            name.as_str(),
            dest,
        ),
        Reference::Keyed(object, key) => postfix_keyed(lines, scope, alloc, at, object, key, dest),
        Reference::Other => value(lines, scope, alloc, target, dest),
    }
}
