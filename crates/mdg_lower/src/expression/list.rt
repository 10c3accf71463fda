//! Lists of expressions: commas (11.14) and initialisers (11.1.4, 11.1.5).

ghost use Rattle.std.specs.Prelude.{◌≡◌, ◌+◌, [], ◌∷◌, Some, None, OnOk, IfOk, map};
ghost use Rattle.mdg_lower.specs.Builder.{Emits};
ghost use Rattle.mdg_lower.specs.Trees as trees;
ghost use Rattle.mdg_lower.specs.Initialisers as initialisers;

use crate::draft::DraftLine;
use crate::expression::value;
use crate::instruction::{object, set_to};
use crate::lookup::{increment, temp};
use crate::scope::Scope;
use mdg_base::NoMemory;
use mdg_tree::{At, Expr, Property, key_name};
use std::alloc::Global;

/// `a, b`.
#[cycle(expression)]
pub fn comma<'a>(
    lines: &mut Vec<DraftLine>,
    scope: &Scope<'a>,
    alloc: Global,
    all: &[Expr],
    dest: u32,
) -> Result<(), NoMemory>
    ensures { OnOk result (Emits
        (initialisers.comma scope.now (trees.operands_of all.now) dest)
        lines.old.items lines.new.items) }
{
    for one in all {
        value(lines, scope, alloc, one, dest)?;
    }
    Ok(())
}

/// An element of an array, which is the property of its number.
#[cycle(expression)]
#[tactic(auto, using(crate::proofs::Growth::growth), unfolding(crate::specs::Initialisers::element))]
fn element<'a>(
    lines: &mut Vec<DraftLine>,
    scope: &Scope<'a>,
    alloc: Global,
    at: At,
    one: &Expr,
    number: u32,
    dest: u32,
) -> Result<(), NoMemory>
    ensures { OnOk result (Emits
        (initialisers.element scope.now at (trees.operand_of one.now) number dest)
        lines.old.items lines.new.items) }
{
    let next = increment(dest)?;
    value(lines, scope, alloc, one, next)?;
    let key = number.to_string(alloc)?;
    set_to(
        lines,
        scope,
        alloc,
        at,
        temp(scope, dest)?,
        key.as_str(),
        temp(scope, next)?,
    )
}

#[cycle(expression)]
fn elements<'a>(
    lines: &mut Vec<DraftLine>,
    scope: &Scope<'a>,
    alloc: Global,
    at: At,
    all: &[Expr],
    dest: u32,
) -> Result<(), NoMemory>
    ensures { OnOk result (Emits
        (initialisers.elements scope.now at (trees.operands_of all.now) 0 dest)
        lines.old.items lines.new.items) }
{
    let mut number = 0;
    for one in all {
        element(lines, scope, alloc, at, one, number, dest)?;
        number = increment(number)?;
    }
    Ok(())
}

/// `[a, b]`.
#[cycle(expression)]
#[tactic(auto, using(crate::proofs::Growth::growth), unfolding(crate::specs::Initialisers::array))]
pub fn array<'a>(
    lines: &mut Vec<DraftLine>,
    scope: &Scope<'a>,
    alloc: Global,
    at: At,
    all: &[Expr],
    dest: u32,
) -> Result<(), NoMemory>
    ensures { OnOk result (Emits
        (initialisers.array scope.now at (trees.operands_of all.now) dest)
        lines.old.items lines.new.items) }
{
    object(lines, scope, at, dest)?;
    elements(lines, scope, alloc, at, all, dest)
}

/// `p: e`.
#[cycle(expression)]
#[tactic(auto, using(crate::proofs::Growth::growth, crate::proofs::FormRulesets::properties), unfolding(crate::specs::Initialisers::property_of))]
fn property<'a>(
    lines: &mut Vec<DraftLine>,
    scope: &Scope<'a>,
    alloc: Global,
    at: At,
    one: &Property,
    dest: u32,
) -> Result<(), NoMemory>
    ensures { OnOk result (Emits
        (initialisers.property_of scope.now at (trees.property_part one.now) dest)
        lines.old.items lines.new.items) }
{
    let next = increment(dest)?;
    value(lines, scope, alloc, &one.value, next)?;
    set_to(
        lines,
        scope,
        alloc,
        at,
        temp(scope, dest)?,
        key_name(&one.key).as_str(),
        temp(scope, next)?,
    )
}

#[cycle(expression)]
fn properties<'a>(
    lines: &mut Vec<DraftLine>,
    scope: &Scope<'a>,
    alloc: Global,
    at: At,
    all: &[Property],
    dest: u32,
) -> Result<(), NoMemory>
    ensures { OnOk result (Emits
        (initialisers.properties scope.now at (map trees.property_part all.now) dest)
        lines.old.items lines.new.items) }
{
    for one in all {
        property(lines, scope, alloc, at, one, dest)?;
    }
    Ok(())
}

/// `{ p: e }`.
#[cycle(expression)]
#[tactic(auto, using(crate::proofs::Growth::growth), unfolding(crate::specs::Initialisers::initialiser))]
pub fn initialiser<'a>(
    lines: &mut Vec<DraftLine>,
    scope: &Scope<'a>,
    alloc: Global,
    at: At,
    all: &[Property],
    dest: u32,
) -> Result<(), NoMemory>
    ensures { OnOk result (Emits
        (initialisers.initialiser scope.now at (map trees.property_part all.now) dest)
        lines.old.items lines.new.items) }
{
    object(lines, scope, at, dest)?;
    properties(lines, scope, alloc, at, all, dest)
}
