//! What stands in a body's statements.

ghost use Rattle.std.specs.Prelude.{◌≡◌, [], OnOk, IfOk, map};
ghost use Rattle.std.specs.List.{flat_map};
ghost use Rattle.mdg_lower.specs.Offsets.{add_offsets};
ghost use Rattle.mdg_lower.specs.Nested as nested;

use crate::offsets::OffsetTable;
use mdg_base::{Items, NoMemory};
use mdg_tree::{Declaration, Expr, Function, Goal, Init, Property, Stmt};
use std::alloc::Global;

/// All functions that stand in the statements, also those in other functions, each before those
/// in its own body, in the order of the source.
#[tactic(auto, unfolding(crate::specs::Nested::GrewBy))]
pub fn functions_in<'a>(alloc: Global, body: &'a [Stmt]) -> Result<Items<&'a Function>, NoMemory>
    ensures { IfOk result (λ r. map (λ f. f.now) r ≡ nested.functions_in body.now) }
{
    let mut into = Items::create(alloc);
    statements(&mut into, body)?;
    Ok(into)
}

#[cycle(gather)]
#[tactic(auto, using(crate::proofs::NestedRulesets::expressions, crate::proofs::NestedLemmas::growth))]
fn expression<'a>(into: &mut Items<&'a Function>, tree: &'a Expr) -> Result<(), NoMemory>
    ensures { OnOk result (nested.Gathers (nested.functions_of_expr tree.now) into.old into.new) }
{
    match tree {
        Expr::Name(..)
        | Expr::Null(..)
        | Expr::True(..)
        | Expr::False(..)
        | Expr::Numeral(..)
        | Expr::Text(..) => Ok(()),
        Expr::Unary(_, _, part)
        | Expr::Prefix(_, _, part)
        | Expr::Postfix(_, _, part)
        | Expr::New(_, part)
        | Expr::Member(_, part, _)
        | Expr::Paren(_, part) => expression(into, part.get()),
        Expr::FunctionExpression(one) => function(into, one),
        Expr::Comma(_, all) | Expr::Array(_, all) => expressions(into, all.as_slice()),
        Expr::Object(_, all) => properties(into, all.as_slice()),
        Expr::Assign(_, _, first, second)
        | Expr::Binary(_, _, first, second)
        | Expr::Index(_, first, second) => {
            expression(into, first.get())?;
            expression(into, second.get())
        }
        Expr::Conditional(_, test, chosen, other) => {
            expression(into, test.get())?;
            expression(into, chosen.get())?;
            expression(into, other.get())
        }
        Expr::NewWithArguments(_, callee, arguments) | Expr::Call(_, callee, arguments) => {
            expression(into, callee.get())?;
            expressions(into, arguments.as_slice())
        }
    }
}

#[cycle(gather)]
#[tactic(auto, using(crate::proofs::NestedRulesets::parts, crate::proofs::NestedLemmas::functions))]
fn function<'a>(into: &mut Items<&'a Function>, one: &'a Function) -> Result<(), NoMemory>
    ensures { OnOk result (nested.Gathers (nested.functions_of_function one.now) into.old into.new) }
{
    into.push(one)?;
    statements(into, one.body.as_slice())
}

#[cycle(gather)]
#[tactic(auto, using(crate::proofs::NestedLemmas::steps))]
fn expressions<'a>(into: &mut Items<&'a Function>, all: &'a [Expr]) -> Result<(), NoMemory>
    ensures { OnOk result (nested.Gathers (flat_map nested.functions_of_expr all.now) into.old into.new) }
{
    for one in all {
        expression(into, one)?;
    }
    Ok(())
}

#[cycle(gather)]
#[tactic(auto, using(crate::proofs::NestedLemmas::steps))]
fn properties<'a>(into: &mut Items<&'a Function>, all: &'a [Property]) -> Result<(), NoMemory>
    ensures { OnOk result (nested.Gathers (flat_map nested.functions_of_property all.now) into.old into.new) }
{
    for one in all {
        property(into, one)?;
    }
    Ok(())
}

#[cycle(gather)]
#[tactic(auto, using(crate::proofs::NestedRulesets::parts))]
fn property<'a>(into: &mut Items<&'a Function>, one: &'a Property) -> Result<(), NoMemory>
    ensures { OnOk result (nested.Gathers (nested.functions_of_property one.now) into.old into.new) }
{
    expression(into, &one.value)
}

#[cycle(gather)]
#[tactic(auto, using(crate::proofs::NestedLemmas::steps))]
fn statements<'a>(into: &mut Items<&'a Function>, all: &'a [Stmt]) -> Result<(), NoMemory>
    ensures { OnOk result (nested.Gathers (flat_map nested.functions_of_stmt all.now) into.old into.new) }
{
    for one in all {
        statement(into, one)?;
    }
    Ok(())
}

#[cycle(gather)]
#[tactic(auto, using(crate::proofs::NestedRulesets::statements, crate::proofs::NestedLemmas::growth))]
fn statement<'a>(into: &mut Items<&'a Function>, tree: &'a Stmt) -> Result<(), NoMemory>
    ensures { OnOk result (nested.Gathers (nested.functions_of_stmt tree.now) into.old into.new) }
{
    match tree {
        Stmt::Empty(..) | Stmt::Continue(..) | Stmt::Break(..) | Stmt::Return(..) => Ok(()),
        Stmt::Block(_, body) => statements(into, body.as_slice()),
        Stmt::Var(_, all) => declarations(into, all.as_slice()),
        Stmt::FunctionDeclaration(one) => function(into, one),
        Stmt::Expression(_, value) | Stmt::ReturnValue(_, value) | Stmt::Throw(_, value) => {
            expression(into, value)
        }
        Stmt::If(_, test, body) | Stmt::While(_, test, body) => {
            expression(into, test)?;
            statement(into, body.get())
        }
        Stmt::IfElse(_, test, body, other) => {
            expression(into, test)?;
            statement(into, body.get())?;
            statement(into, other.get())
        }
        Stmt::DoWhile(_, body, test) => {
            statement(into, body.get())?;
            expression(into, test)
        }
        Stmt::For(_, init, test, update, body) => {
            initial(into, init)?;
            optional(into, test)?;
            optional(into, update)?;
            statement(into, body.get())
        }
        Stmt::ForIn(_, target, object, body) => {
            goal(into, target)?;
            expression(into, object)?;
            statement(into, body.get())
        }
    }
}

#[cycle(gather)]
#[tactic(auto, using(crate::proofs::NestedLemmas::growth))]
fn optional<'a>(into: &mut Items<&'a Function>, tree: &'a Option<Expr>) -> Result<(), NoMemory>
    ensures { OnOk result (nested.Gathers (nested.functions_of_optional tree.now) into.old into.new) }
{
    match tree {
        Some(part) => expression(into, part),
        None => Ok(()),
    }
}

#[cycle(gather)]
#[tactic(auto, using(crate::proofs::NestedRulesets::heads, crate::proofs::NestedLemmas::growth))]
fn initial<'a>(into: &mut Items<&'a Function>, init: &'a Init) -> Result<(), NoMemory>
    ensures { OnOk result (nested.Gathers (nested.functions_of_init init.now) into.old into.new) }
{
    match init {
        Init::Absent => Ok(()),
        Init::Declarations(_, all) => declarations(into, all.as_slice()),
        Init::Initial(value) => expression(into, value),
    }
}

#[cycle(gather)]
#[tactic(auto, using(crate::proofs::NestedRulesets::heads, crate::proofs::NestedLemmas::growth))]
fn goal<'a>(into: &mut Items<&'a Function>, target: &'a Goal) -> Result<(), NoMemory>
    ensures { OnOk result (nested.Gathers (nested.functions_of_goal target.now) into.old into.new) }
{
    match target {
        Goal::Variable(..) => Ok(()),
        Goal::Target(value) => expression(into, value),
    }
}

#[cycle(gather)]
#[tactic(auto, using(crate::proofs::NestedLemmas::steps))]
fn declarations<'a>(into: &mut Items<&'a Function>, all: &'a [Declaration]) -> Result<(), NoMemory>
    ensures { OnOk result (nested.Gathers (flat_map nested.functions_of_declaration all.now) into.old into.new) }
{
    for one in all {
        declaration(into, one)?;
    }
    Ok(())
}

#[cycle(gather)]
#[tactic(auto, using(crate::proofs::NestedRulesets::parts))]
fn declaration<'a>(into: &mut Items<&'a Function>, one: &'a Declaration) -> Result<(), NoMemory>
    ensures { OnOk result (nested.Gathers (nested.functions_of_declaration one.now) into.old into.new) }
{
    optional(into, &one.value)
}

/// The offsets of the `for` statements with `in` among the statements, an outer one before those
/// in its body, in the order of the source. Those in functions are not among them.
pub fn loops_in(alloc: Global, body: &[Stmt]) -> Result<OffsetTable, NoMemory>
    ensures { IfOk result (λ t. t ≡ add_offsets [] (nested.loops_in body.now)) }
{
    let mut into = OffsetTable::create(alloc);
    loops_of_all(&mut into, body)?;
    Ok(into)
}

#[cycle(loops)]
#[tactic(auto, using(crate::proofs::NestedLemmas::additions_in_steps))]
fn loops_of_all(into: &mut OffsetTable, all: &[Stmt]) -> Result<(), NoMemory>
    ensures { OnOk result (into.new ≡ add_offsets into.old (flat_map nested.loops_of all.now)) }
{
    for one in all {
        loops_of(into, one)?;
    }
    Ok(())
}

#[cycle(loops)]
#[tactic(auto, using(crate::proofs::NestedRulesets::loops, crate::proofs::NestedLemmas::additions))]
fn loops_of(into: &mut OffsetTable, tree: &Stmt) -> Result<(), NoMemory>
    ensures { OnOk result (into.new ≡ add_offsets into.old (nested.loops_of tree.now)) }
{
    match tree {
        Stmt::Var(..)
        | Stmt::Empty(..)
        | Stmt::Expression(..)
        | Stmt::Continue(..)
        | Stmt::Break(..)
        | Stmt::Return(..)
        | Stmt::ReturnValue(..)
        | Stmt::Throw(..)
        | Stmt::FunctionDeclaration(..) => Ok(()),
        Stmt::Block(_, body) => loops_of_all(into, body.as_slice()),
        Stmt::If(_, _, body)
        | Stmt::DoWhile(_, body, _)
        | Stmt::While(_, _, body)
        | Stmt::For(_, _, _, _, body) => loops_of(into, body.get()),
        Stmt::IfElse(_, _, body, other) => {
            loops_of(into, body.get())?;
            loops_of(into, other.get())
        }
        Stmt::ForIn(at, _, _, body) => {
            into.add(at.offset)?;
            loops_of(into, body.get())
        }
    }
}
