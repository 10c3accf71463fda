//! The lowering of statements (12).

pub mod leaf;

ghost use Rattle.std.specs.Prelude.{◌≡◌, ◌+◌, [], ◌∷◌, Some, None, OnOk, IfOk, map, option_map};
ghost use Rattle.mdg_lower.specs.Statements as statements;
ghost use Rattle.mdg_lower.specs.Builder.{Emits, nothing};
ghost use Rattle.mdg_lower.specs.Trees as trees;
ghost use Rattle.mdg_lower.specs.Operators as operators;

use crate::builder::{finish_do, finish_while, here, patch_branch, patch_over, reserve_branch};
use crate::draft::{DraftLine, Label};
use crate::expression::value;
use crate::instruction::{copy, operate_on_local};
use crate::lookup::{increment, loop_at, temp};
use crate::reference::at_of;
use crate::scope::Scope;
use crate::statement::leaf::{
    declarations, expression, goal, init, leave, optional, return_undefined, return_value,
    throw_value,
};
use mdg_base::{Local, NoMemory};
use mdg_tree::{At, Expr, Goal, Init, Stmt};
use std::alloc::Global;

/// `if (e) s` (12.5).
#[cycle(statement)]
#[tactic(auto, using(crate::proofs::Growth::growth, crate::proofs::Patches::patches), unfolding(crate::specs::Statements::if_then))]
fn if_then<'a>(
    lines: &mut Vec<DraftLine>,
    scope: &Scope<'a>,
    alloc: Global,
    at: At,
    test: &Expr,
    body: &Stmt,
) -> Result<(), NoMemory>
    ensures { OnOk result (Emits
        (statements.if_then scope.now at (trees.operand_of test.now) (trees.lines_of_stmt body.now scope.now))
        lines.old.items lines.new.items) }
{
    value(lines, scope, alloc, test, 0)?;
    let from = here(lines)?;
    reserve_branch(lines, scope, at)?;
    statement(lines, scope, alloc, body)?;
    patch_over(lines, scope, at, from)
}

/// One of two statements.
#[cycle(statement)]
#[tactic(auto, using(crate::proofs::Patches::choices))]
fn either<'a>(
    lines: &mut Vec<DraftLine>,
    scope: &Scope<'a>,
    alloc: Global,
    at: At,
    body: &Stmt,
    otherwise: &Stmt,
) -> Result<(), NoMemory>
    ensures { OnOk result (Emits
        (operators.either scope.now at (trees.lines_of_stmt body.now scope.now)
        (trees.lines_of_stmt otherwise.now scope.now))
        lines.old.items lines.new.items) }
{
    let from = here(lines)?;
    reserve_branch(lines, scope, at)?;
    statement(lines, scope, alloc, body)?;
    let middle = here(lines)?;
    reserve_branch(lines, scope, at)?;
    statement(lines, scope, alloc, otherwise)?;
    let end = here(lines)?;
    patch_branch(lines, scope, at, from, increment(from)?, increment(middle)?)?;
    patch_branch(lines, scope, at, middle, end, end)
}

/// `if (e) s else u` (12.5).
#[cycle(statement)]
#[tactic(auto, using(crate::proofs::Growth::growth), unfolding(crate::specs::Statements::if_else))]
fn if_else<'a>(
    lines: &mut Vec<DraftLine>,
    scope: &Scope<'a>,
    alloc: Global,
    at: At,
    test: &Expr,
    body: &Stmt,
    otherwise: &Stmt,
) -> Result<(), NoMemory>
    ensures { OnOk result (Emits
        (statements.if_else scope.now at (trees.operand_of test.now) (trees.lines_of_stmt body.now scope.now)
        (trees.lines_of_stmt otherwise.now scope.now))
        lines.old.items lines.new.items) }
{
    value(lines, scope, alloc, test, 0)?;
    either(lines, scope, alloc, at, body, otherwise)
}

/// `while (e) s` (12.6.2).
#[cycle(statement)]
#[tactic(auto, using(crate::proofs::LoopLemmas::whiles), unfolding(crate::specs::Statements::while_of))]
fn while_of<'a>(
    lines: &mut Vec<DraftLine>,
    scope: &Scope<'a>,
    alloc: Global,
    at: At,
    test: &Expr,
    body: &Stmt,
) -> Result<(), NoMemory>
    ensures { OnOk result (Emits
        (statements.while_of scope.now at (trees.operand_of test.now) (trees.lines_of_stmt body.now scope.now))
        lines.old.items lines.new.items) }
{
    let start = here(lines)?;
    value(lines, scope, alloc, test, 0)?;
    let from = here(lines)?;
    reserve_branch(lines, scope, at)?;
    statement(lines, scope, alloc, body)?;
    finish_while(lines, scope, at, start, from, start)
}

/// The test, body and update of a `for`.
#[cycle(statement)]
#[tactic(auto, using(crate::proofs::LoopLemmas::loops))]
fn loop_lines<'a>(
    lines: &mut Vec<DraftLine>,
    scope: &Scope<'a>,
    alloc: Global,
    at: At,
    test: &Option<Expr>,
    update: &Option<Expr>,
    body: &Stmt,
) -> Result<(), NoMemory>
    ensures { OnOk result (Emits
        (statements.loop_lines scope.now at statements.to_update
        (statements.optional scope.now (option_map (λ e. trees.operand_of e) test.now) 0)
        (trees.lines_of_stmt body.now scope.now) (statements.optional scope.now
        (option_map (λ e. trees.operand_of e) update.now) 0))
        lines.old.items lines.new.items) }
{
    let start = here(lines)?;
    optional(lines, scope, alloc, test)?;
    let from = here(lines)?;
    reserve_branch(lines, scope, at)?;
    statement(lines, scope, alloc, body)?;
    let next = here(lines)?;
    optional(lines, scope, alloc, update)?;
    finish_while(lines, scope, at, start, from, next)
}

/// `for (i; e; u) s` (12.6.3).
#[cycle(statement)]
#[tactic(auto, using(crate::proofs::Growth::growth), unfolding(crate::specs::Statements::for_of))]
fn for_of<'a>(
    lines: &mut Vec<DraftLine>,
    scope: &Scope<'a>,
    alloc: Global,
    at: At,
    begin: &Init,
    test: &Option<Expr>,
    update: &Option<Expr>,
    body: &Stmt,
) -> Result<(), NoMemory>
    ensures { OnOk result (Emits
        (statements.for_of scope.now at (trees.init_lines begin.now scope.now)
        (option_map (λ e. trees.operand_of e) test.now) (option_map (λ e. trees.operand_of e) update.now)
        (trees.lines_of_stmt body.now scope.now))
        lines.old.items lines.new.items) }
{
    init(lines, scope, alloc, begin)?;
    loop_lines(lines, scope, alloc, at, test, update, body)
}

/// An iteration of a `for` with `in`.
#[cycle(statement)]
#[tactic(auto, using(crate::proofs::Growth::growth), unfolding(crate::specs::Statements::for_in_body))]
fn for_in_body<'a>(
    lines: &mut Vec<DraftLine>,
    scope: &Scope<'a>,
    alloc: Global,
    at: At,
    name: Local,
    target: &Goal,
    body: &Stmt,
) -> Result<(), NoMemory>
    ensures { OnOk result (Emits
        (statements.for_in_body scope.now at name (trees.goal_lines target.now scope.now)
        (trees.lines_of_stmt body.now scope.now))
        lines.old.items lines.new.items) }
{
    operate_on_local(lines, scope, alloc, at, 0, name)?;
    goal(lines, scope, alloc, target)?;
    statement(lines, scope, alloc, body)
}

/// The iterations of a `for` with `in`.
#[cycle(statement)]
#[tactic(auto, using(crate::proofs::LoopLemmas::turns))]
fn for_in_loop<'a>(
    lines: &mut Vec<DraftLine>,
    scope: &Scope<'a>,
    alloc: Global,
    at: At,
    object_at: At,
    name: Local,
    target: &Goal,
    body: &Stmt,
) -> Result<(), NoMemory>
    ensures { OnOk result (Emits
        (statements.loop_lines scope.now at statements.to_test nothing
        (statements.for_in_body scope.now object_at name (trees.goal_lines target.now scope.now)
        (trees.lines_of_stmt body.now scope.now)) nothing)
        lines.old.items lines.new.items) }
{
    let start = here(lines)?;
    reserve_branch(lines, scope, at)?;
    for_in_body(lines, scope, alloc, object_at, name, target, body)?;
    finish_while(lines, scope, at, start, start, start)
}

/// `for (goal in e) s` (12.6.4).
#[cycle(statement)]
#[tactic(auto, using(crate::proofs::Growth::growth), unfolding(crate::specs::Statements::for_in))]
fn for_in<'a>(
    lines: &mut Vec<DraftLine>,
    scope: &Scope<'a>,
    alloc: Global,
    at: At,
    target: &Goal,
    object: &Expr,
    body: &Stmt,
) -> Result<(), NoMemory>
    ensures { OnOk result (Emits
        (statements.for_in scope.now at (trees.goal_lines target.now scope.now) (trees.at_of object.now)
        (trees.operand_of object.now) (trees.lines_of_stmt body.now scope.now))
        lines.old.items lines.new.items) }
{
    value(lines, scope, alloc, object, 0)?;
    let name = loop_at(scope, at.offset)?;
    copy(lines, scope, at, name, temp(scope, 0)?)?;
    for_in_loop(lines, scope, alloc, at, at_of(object), name, target, body)
}

/// `do s while (e)` (12.6.1).
#[cycle(statement)]
#[tactic(auto, using(crate::proofs::LoopLemmas::doings))]
fn do_while<'a>(
    lines: &mut Vec<DraftLine>,
    scope: &Scope<'a>,
    alloc: Global,
    at: At,
    body: &Stmt,
    test: &Expr,
) -> Result<(), NoMemory>
    ensures { OnOk result (Emits
        (statements.do_while scope.now at (trees.lines_of_stmt body.now scope.now) (trees.operand_of test.now))
        lines.old.items lines.new.items) }
{
    let start = here(lines)?;
    statement(lines, scope, alloc, body)?;
    let next = here(lines)?;
    value(lines, scope, alloc, test, 0)?;
    finish_do(lines, scope, at, start, next)
}

/// Statements, one after another (12.1).
#[cycle(statement)]
pub fn body<'a>(
    lines: &mut Vec<DraftLine>,
    scope: &Scope<'a>,
    alloc: Global,
    all: &[Stmt],
) -> Result<(), NoMemory>
    ensures { OnOk result (Emits (trees.body_lines all.now scope.now) lines.old.items lines.new.items) }
{
    for one in all {
        statement(lines, scope, alloc, one)?;
    }
    Ok(())
}

/// The lines of a statement. A declared function has its lines at the start of the function around it.
#[cycle(statement)]
#[tactic(auto, using(crate::proofs::Growth::growth, crate::proofs::FormRulesets::stmt_lines))]
pub fn statement<'a>(
    lines: &mut Vec<DraftLine>,
    scope: &Scope<'a>,
    alloc: Global,
    tree: &Stmt,
) -> Result<(), NoMemory>
    ensures { OnOk result (Emits (trees.lines_of_stmt tree.now scope.now) lines.old.items lines.new.items) }
{
    match tree {
        Stmt::Block(_, all) => body(lines, scope, alloc, all.as_slice()),
        Stmt::Var(at, all) => declarations(lines, scope, alloc, *at, all.as_slice()),
        Stmt::Empty(_) | Stmt::FunctionDeclaration(_) => Ok(()),
        Stmt::Expression(_, tree) => expression(lines, scope, alloc, tree),
        Stmt::If(at, test, then) => if_then(lines, scope, alloc, *at, test, then.get()),
        Stmt::IfElse(at, test, then, otherwise) => {
            if_else(lines, scope, alloc, *at, test, then.get(), otherwise.get())
        }
        Stmt::DoWhile(at, inner, test) => do_while(lines, scope, alloc, *at, inner.get(), test),
        Stmt::While(at, test, inner) => while_of(lines, scope, alloc, *at, test, inner.get()),
        Stmt::For(at, begin, test, update, inner) => {
            for_of(lines, scope, alloc, *at, begin, test, update, inner.get())
        }
        Stmt::ForIn(at, target, object, inner) => {
            for_in(lines, scope, alloc, *at, target, object, inner.get())
        }
        Stmt::Continue(at) => leave(lines, scope, *at, Label::Continue),
        Stmt::Break(at) => leave(lines, scope, *at, Label::Break),
        Stmt::Return(at) => return_undefined(lines, scope, alloc, *at),
        Stmt::ReturnValue(at, tree) => return_value(lines, scope, alloc, *at, tree),
        Stmt::Throw(at, tree) => throw_value(lines, scope, alloc, *at, tree),
    }
}
