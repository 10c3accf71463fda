//! Operators (11.4 to 11.12).

ghost use Rattle.std.specs.Prelude.{◌≡◌, ◌+◌, [], ◌∷◌, Some, None, OnOk, IfOk, map};
ghost use Rattle.mdg_lower.specs.Builder.{Emits};
ghost use Rattle.mdg_lower.specs.Trees as trees;
ghost use Rattle.mdg_lower.specs.Lookup as lookup;
ghost use Rattle.mdg_lower.specs.Operators as operators;

use crate::assigned::stable_local;
use crate::builder::{here, patch_branch, reserve_branch};
use crate::draft::DraftLine;
use crate::expression::operand::{
    emit_optional, lower_base, lower_key, remove_keyed, remove_member,
};
use crate::expression::value;
use crate::instruction::{any_primitive, literal, operate, operate_on, operate_on_two};
use crate::lookup::{increment, meaning};
use crate::reference::{Reference, name_of, reference_of};
use crate::scope::{Meaning, Scope};
use mdg_base::{Items, NoMemory};
use mdg_tree::{At, BinaryOperator, Expr, UnaryOperator};
use std::alloc::Global;

/// An operator on one value.
#[cycle(expression)]
#[tactic(auto, using(crate::proofs::Growth::growth), unfolding(crate::specs::Operators::unary_operation))]
fn unary_operation<'a>(
    lines: &mut Vec<DraftLine>,
    scope: &Scope<'a>,
    alloc: Global,
    at: At,
    tree: &Expr,
    dest: u32,
) -> Result<(), NoMemory>
    ensures { OnOk result (Emits
        (operators.unary_operation scope.now at (trees.operand_of tree.now) dest)
        lines.old.items lines.new.items) }
{
    value(lines, scope, alloc, tree, dest)?;
    operate_on(lines, scope, alloc, at, dest)
}

/// An operator on two values.
#[cycle(expression)]
#[tactic(auto, using(crate::proofs::Growth::growth), unfolding(crate::specs::Operators::binary_operation))]
fn binary_operation<'a>(
    lines: &mut Vec<DraftLine>,
    scope: &Scope<'a>,
    alloc: Global,
    at: At,
    left: &Expr,
    right: &Expr,
    dest: u32,
) -> Result<(), NoMemory>
    ensures { OnOk result (Emits
        (operators.binary_operation scope.now at (trees.operand_of left.now) (trees.operand_of right.now) dest)
        lines.old.items lines.new.items) }
{
    value(lines, scope, alloc, left, dest)?;
    let next = increment(dest)?;
    value(lines, scope, alloc, right, next)?;
    operate_on_two(lines, scope, alloc, at, dest, next)
}

/// `a && b` and `a || b`.
#[cycle(expression)]
#[tactic(auto, using(crate::proofs::Growth::growth), unfolding(crate::specs::Operators::logical_operation))]
fn logical_operation<'a>(
    lines: &mut Vec<DraftLine>,
    scope: &Scope<'a>,
    alloc: Global,
    at: At,
    left: &Expr,
    right: &Expr,
    dest: u32,
) -> Result<(), NoMemory>
    ensures { OnOk result (Emits
        (operators.logical_operation scope.now at (trees.operand_of left.now) (trees.operand_of right.now) dest)
        lines.old.items lines.new.items) }
{
    value(lines, scope, alloc, left, dest)?;
    emit_optional(lines, scope, alloc, at, right, dest)
}

/// An operator between two values.
#[cycle(expression)]
pub fn binary<'a>(
    lines: &mut Vec<DraftLine>,
    scope: &Scope<'a>,
    alloc: Global,
    at: At,
    operator: BinaryOperator,
    left: &Expr,
    right: &Expr,
    dest: u32,
) -> Result<(), NoMemory>
    ensures { OnOk result (Emits
        (operators.binary_of scope.now at operator (trees.operand_of left.now) (trees.operand_of right.now) dest)
        lines.old.items lines.new.items) }
{
    match operator {
        BinaryOperator::Or | BinaryOperator::And => logical_operation(
            lines, scope, alloc, at, left, right, dest,
        ),
        BinaryOperator::BitOr
        | BinaryOperator::BitXor
        | BinaryOperator::BitAnd
        | BinaryOperator::Equal
        | BinaryOperator::NotEqual
        | BinaryOperator::StrictEqual
        | BinaryOperator::StrictNotEqual
        | BinaryOperator::Less
        | BinaryOperator::Greater
        | BinaryOperator::LessEqual
        | BinaryOperator::GreaterEqual
        | BinaryOperator::InstanceOf
        | BinaryOperator::In
        | BinaryOperator::ShiftLeft
        | BinaryOperator::ShiftRight
        | BinaryOperator::ShiftRightUnsigned
        | BinaryOperator::Add
        | BinaryOperator::Subtract
        | BinaryOperator::Multiply
        | BinaryOperator::Divide
        | BinaryOperator::Remainder => binary_operation(lines, scope, alloc, at, left, right, dest),
    }
}

/// `c ? a : b`.
#[cycle(expression)]
#[tactic(auto, using(crate::proofs::Growth::growth), unfolding(crate::specs::Operators::conditional))]
pub fn conditional<'a>(
    lines: &mut Vec<DraftLine>,
    scope: &Scope<'a>,
    alloc: Global,
    at: At,
    test: &Expr,
    chosen: &Expr,
    otherwise: &Expr,
    dest: u32,
) -> Result<(), NoMemory>
    ensures { OnOk result (Emits
        (operators.conditional scope.now at (trees.operand_of test.now) (trees.operand_of chosen.now)
        (trees.operand_of otherwise.now) dest)
        lines.old.items lines.new.items) }
{
    value(lines, scope, alloc, test, dest)?;
    either(lines, scope, alloc, at, chosen, otherwise, dest)
}

/// One of two values.
#[cycle(expression)]
#[tactic(auto, using(crate::proofs::Patches::choices))]
fn either<'a>(
    lines: &mut Vec<DraftLine>,
    scope: &Scope<'a>,
    alloc: Global,
    at: At,
    chosen: &Expr,
    otherwise: &Expr,
    dest: u32,
) -> Result<(), NoMemory>
    ensures { OnOk result (Emits
        (operators.either scope.now at ((trees.operand_of chosen.now).value scope.now dest)
        ((trees.operand_of otherwise.now).value scope.now dest))
        lines.old.items lines.new.items) }
{
    let from = here(lines)?;
    reserve_branch(lines, scope, at)?;
    value(lines, scope, alloc, chosen, dest)?;
    let middle = here(lines)?;
    reserve_branch(lines, scope, at)?;
    value(lines, scope, alloc, otherwise, dest)?;
    let end = here(lines)?;
    patch_branch(lines, scope, at, from, increment(from)?, increment(middle)?)?;
    patch_branch(lines, scope, at, middle, end, end)
}

/// `void e`.
#[cycle(expression)]
#[tactic(auto, using(crate::proofs::Growth::growth), unfolding(crate::specs::Operators::void_of))]
fn void_of<'a>(
    lines: &mut Vec<DraftLine>,
    scope: &Scope<'a>,
    alloc: Global,
    at: At,
    tree: &Expr,
    dest: u32,
) -> Result<(), NoMemory>
    ensures { OnOk result (Emits
        (operators.void_of scope.now at (trees.operand_of tree.now) dest)
        lines.old.items lines.new.items) }
{
    value(lines, scope, alloc, tree, dest)?;
    literal(lines, scope, alloc, at, "undefined", dest)
}

/// `typeof` of a name, which may mean nothing.
#[cycle(expression)]
fn type_of_name<'a>(
    lines: &mut Vec<DraftLine>,
    scope: &Scope<'a>,
    alloc: Global,
    at: At,
    name: &str,
    tree: &Expr,
    dest: u32,
) -> Result<(), NoMemory>
    ensures { OnOk result (Emits
        (operators.type_of_name scope.now at (lookup.meaning scope.now name.now) (trees.operand_of tree.now) dest)
        lines.old.items lines.new.items) }
{
    match meaning(scope, name)? {
        Meaning::Nothing => operate(lines, scope, at, dest, Items::create(alloc)),
        Meaning::Local(..)
        | Meaning::Cell(..)
        | Meaning::Require
        | Meaning::Literal
        | Meaning::Global => unary_operation(lines, scope, alloc, at, tree, dest),
    }
}

/// `typeof e`.
#[cycle(expression)]
fn type_of<'a>(
    lines: &mut Vec<DraftLine>,
    scope: &Scope<'a>,
    alloc: Global,
    at: At,
    tree: &Expr,
    dest: u32,
) -> Result<(), NoMemory>
    ensures { OnOk result (Emits
        (operators.type_of scope.now at (trees.name_of tree.now) (trees.operand_of tree.now) dest)
        lines.old.items lines.new.items) }
{
    match name_of(tree) {
        Some(name) => type_of_name(lines, scope, alloc, at, name.as_str(), tree, dest),
        None => unary_operation(lines, scope, alloc, at, tree, dest),
    }
}

/// `delete e.p`.
#[cycle(expression)]
#[tactic(auto, using(crate::proofs::Growth::growth), unfolding(crate::specs::Operators::delete_member))]
fn delete_member<'a>(
    lines: &mut Vec<DraftLine>,
    scope: &Scope<'a>,
    alloc: Global,
    at: At,
    object: &Expr,
    name: &str,
    dest: u32,
) -> Result<(), NoMemory>
    ensures { OnOk result (Emits
        (operators.delete_member scope.now at (trees.operand_of object.now) name.now dest)
        lines.old.items lines.new.items) }
{
    let stable = stable_local(scope, object, None, None, &[])?;
    let (of, next) = lower_base(lines, scope, alloc, stable, object, dest)?;
    remove_member(lines, scope, alloc, at, of, name, next)?;
    any_primitive(lines, scope, at, dest)
}

/// `delete e[k]`.
#[cycle(expression)]
#[tactic(auto, using(crate::proofs::Growth::growth), unfolding(crate::specs::Operators::delete_keyed))]
fn delete_keyed<'a>(
    lines: &mut Vec<DraftLine>,
    scope: &Scope<'a>,
    alloc: Global,
    at: At,
    object: &Expr,
    key: &Expr,
    dest: u32,
) -> Result<(), NoMemory>
    ensures { OnOk result (Emits
        (operators.delete_keyed scope.now at (trees.operand_of object.now) (trees.operand_of key.now) dest)
        lines.old.items lines.new.items) }
{
    let stable = stable_local(scope, object, Some(key), None, &[])?;
    let (of, next) = lower_base(lines, scope, alloc, stable, object, dest)?;
    lower_key(lines, scope, alloc, at, key, next)?;
    remove_keyed(lines, scope, alloc, at, of, next, increment(next)?)?;
    any_primitive(lines, scope, at, dest)
}

/// `delete` of something else.
#[cycle(expression)]
#[tactic(auto, using(crate::proofs::Growth::growth), unfolding(crate::specs::Operators::delete_value))]
fn delete_value<'a>(
    lines: &mut Vec<DraftLine>,
    scope: &Scope<'a>,
    alloc: Global,
    at: At,
    tree: &Expr,
    dest: u32,
) -> Result<(), NoMemory>
    ensures { OnOk result (Emits
        (operators.delete_value scope.now at (trees.operand_of tree.now) dest)
        lines.old.items lines.new.items) }
{
    value(lines, scope, alloc, tree, dest)?;
    any_primitive(lines, scope, at, dest)
}

/// `delete`, by the reference that is its operand.
#[cycle(expression)]
fn delete<'a>(
    lines: &mut Vec<DraftLine>,
    scope: &Scope<'a>,
    alloc: Global,
    at: At,
    tree: &Expr,
    dest: u32,
) -> Result<(), NoMemory>
    ensures { OnOk result (Emits
        (operators.delete_of scope.now at (trees.reference_of tree.now) (trees.operand_of tree.now) dest)
        lines.old.items lines.new.items) }
{
    match reference_of(tree) {
        Reference::Member(object, name) => delete_member(
            lines,
            scope,
            alloc,
            at,
            object,
            name.as_str(),
            dest,
        ),
        Reference::Keyed(object, key) => delete_keyed(lines, scope, alloc, at, object, key, dest),
        Reference::Named(..) | Reference::Other => delete_value(
            lines, scope, alloc, at, tree, dest,
        ),
    }
}

/// An operator before a value.
#[cycle(expression)]
pub fn unary<'a>(
    lines: &mut Vec<DraftLine>,
    scope: &Scope<'a>,
    alloc: Global,
    at: At,
    operator: UnaryOperator,
    tree: &Expr,
    dest: u32,
) -> Result<(), NoMemory>
    ensures { OnOk result (Emits
        (operators.unary_of scope.now at operator (trees.reference_of tree.now) (trees.operand_of tree.now) dest)
        lines.old.items lines.new.items) }
{
    match operator {
        UnaryOperator::Delete => delete(lines, scope, alloc, at, tree, dest),
        UnaryOperator::Void => void_of(lines, scope, alloc, at, tree, dest),
        UnaryOperator::TypeOf => type_of(lines, scope, alloc, at, tree, dest),
        UnaryOperator::Plus | UnaryOperator::Minus | UnaryOperator::BitNot | UnaryOperator::Not =>
            unary_operation(lines, scope, alloc, at, tree, dest),
    }
}
