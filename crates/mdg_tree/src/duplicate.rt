//! A copy of a tree.

ghost use Rattle.std.specs.Prelude.{◌≡◌, IfOk};

use crate::tree::{Declaration, Expr, FileTree, Function, Goal, Init, Key, Property, Stmt};
use mdg_base::{NoMemory, copy_numbers, copy_optional, copy_texts};
use sqlite_items::{Boxed, Items};
use std::alloc::Global;

/// A tree that equals this one. A refused call leaves nothing.
pub fn copy(alloc: Global, tree: &FileTree) -> Result<FileTree, NoMemory>
    ensures { IfOk result (λ t. t ≡ tree.now) }
{
    let mut items = mdg_base::Items::create(alloc);
    for one in tree.items.as_slice() {
        items.push(copy_stmt(alloc, one)?)?;
    }
    Ok(FileTree { at: tree.at, items })
}

fn copy_key(alloc: Global, key: &Key) -> Result<Key, NoMemory>
    ensures { IfOk result (λ t. t ≡ key.now) }
{
    match key {
        Key::Name(text) => Ok(Key::Name(text.copy(alloc)?)),
        Key::Text(text) => Ok(Key::Text(text.copy(alloc)?)),
        Key::Numeral(text) => Ok(Key::Numeral(text.copy(alloc)?)),
    }
}

#[cycle(copy)]
fn copy_expr(alloc: Global, tree: &Expr) -> Result<Expr, NoMemory>
    ensures { IfOk result (λ t. t ≡ tree.now) }
{
    Ok(match tree {
        Expr::Comma(at, all) => Expr::Comma(*at, copy_all(alloc, all.as_slice())?),
        Expr::Assign(at, op, a, b) => {
            Expr::Assign(*at, *op, boxed(alloc, a.get())?, boxed(alloc, b.get())?)
        }
        Expr::Conditional(at, test, a, b) => Expr::Conditional(
            *at,
            boxed(alloc, test.get())?,
            boxed(alloc, a.get())?,
            boxed(alloc, b.get())?,
        ),
        Expr::Binary(at, op, a, b) => {
            Expr::Binary(*at, *op, boxed(alloc, a.get())?, boxed(alloc, b.get())?)
        }
        Expr::Unary(at, op, a) => Expr::Unary(*at, *op, boxed(alloc, a.get())?),
        Expr::Prefix(at, step, a) => Expr::Prefix(*at, *step, boxed(alloc, a.get())?),
        Expr::Postfix(at, step, a) => Expr::Postfix(*at, *step, boxed(alloc, a.get())?),
        Expr::New(at, a) => Expr::New(*at, boxed(alloc, a.get())?),
        Expr::NewWithArguments(at, a, all) => {
            let callee = boxed(alloc, a.get())?;
            Expr::NewWithArguments(*at, callee, copy_all(alloc, all.as_slice())?)
        }
        Expr::Call(at, a, all) => {
            Expr::Call(
                *at,
                boxed(alloc, a.get())?,
                copy_all(alloc, all.as_slice())?,
            )
        }
        Expr::Index(at, a, key) => {
            Expr::Index(*at, boxed(alloc, a.get())?, boxed(alloc, key.get())?)
        }
        Expr::Member(at, a, name) => {
            Expr::Member(*at, boxed(alloc, a.get())?, name.copy(alloc)?)
        }
        Expr::FunctionExpression(function) => {
            Expr::FunctionExpression(copy_function(alloc, function)?)
        }
        Expr::Name(at, name) => Expr::Name(*at, name.copy(alloc)?),
        Expr::Null(at) => Expr::Null(*at),
        Expr::True(at) => Expr::True(*at),
        Expr::False(at) => Expr::False(*at),
        Expr::Numeral(at, text) => Expr::Numeral(*at, text.copy(alloc)?),
        Expr::Text(at, text) => Expr::Text(*at, text.copy(alloc)?),
        Expr::Paren(at, a) => Expr::Paren(*at, boxed(alloc, a.get())?),
        Expr::Array(at, all) => Expr::Array(*at, copy_all(alloc, all.as_slice())?),
        Expr::Object(at, all) => Expr::Object(*at, copy_properties(alloc, all.as_slice())?),
    })
}

#[cycle(copy)]
fn boxed(alloc: Global, tree: &Expr) -> Result<Boxed<Expr>, NoMemory>
    ensures { IfOk result (λ t. t ≡ tree.now) }
{
    let made = copy_expr(alloc, tree)?;
    Ok(Boxed::new(alloc, made)?)
}

#[cycle(copy)]
fn copy_all(alloc: Global, all: &[Expr]) -> Result<Items<Expr>, NoMemory>
    ensures { IfOk result (λ t. t ≡ all.now) }
{
    let mut made = Items::new(alloc);
    for one in all {
        made.push(copy_expr(alloc, one)?)?;
    }
    Ok(made)
}

#[cycle(copy)]
fn copy_properties(alloc: Global, all: &[Property]) -> Result<Items<Property>, NoMemory>
    ensures { IfOk result (λ t. t ≡ all.now) }
{
    let mut made = Items::new(alloc);
    for one in all {
        let key = copy_key(alloc, &one.key)?;
        let value = copy_expr(alloc, &one.value)?;
        made.push(Property {
            at: one.at,
            key,
            value,
        })?;
    }
    Ok(made)
}

#[cycle(copy)]
fn copy_function(alloc: Global, function: &Function) -> Result<Function, NoMemory>
    ensures { IfOk result (λ t. t ≡ function.now) }
{
    let name = copy_optional(alloc, &function.name)?;
    let parameters = copy_texts(alloc, function.parameters.as_slice())?;
    let parameter_offsets = copy_numbers(alloc, function.parameter_offsets.as_slice())?;
    let body = copy_body(alloc, function.body.as_slice())?;
    Ok(Function {
        name,
        name_offset: function.name_offset,
        parameters,
        parameter_offsets,
        body,
        line: function.line,
        offset: function.offset,
    })
}

#[cycle(copy)]
fn copy_part(alloc: Global, tree: &Option<Expr>) -> Result<Option<Expr>, NoMemory>
    ensures { IfOk result (λ t. t ≡ tree.now) }
{
    match tree {
        Some(part) => Ok(Some(copy_expr(alloc, part)?)),
        None => Ok(None),
    }
}

#[cycle(copy)]
fn copy_stmt(alloc: Global, tree: &Stmt) -> Result<Stmt, NoMemory>
    ensures { IfOk result (λ t. t ≡ tree.now) }
{
    Ok(match tree {
        Stmt::Block(at, body) => Stmt::Block(*at, copy_body(alloc, body.as_slice())?),
        Stmt::Var(at, all) => Stmt::Var(*at, copy_declarations(alloc, all.as_slice())?),
        Stmt::Empty(at) => Stmt::Empty(*at),
        Stmt::Expression(at, value) => Stmt::Expression(*at, copy_expr(alloc, value)?),
        Stmt::If(at, test, body) => {
            Stmt::If(*at, copy_expr(alloc, test)?, boxed_stmt(alloc, body.get())?)
        }
        Stmt::IfElse(at, test, body, other) => Stmt::IfElse(
            *at,
            copy_expr(alloc, test)?,
            boxed_stmt(alloc, body.get())?,
            boxed_stmt(alloc, other.get())?,
        ),
        Stmt::DoWhile(at, body, test) => {
            let body = boxed_stmt(alloc, body.get())?;
            Stmt::DoWhile(*at, body, copy_expr(alloc, test)?)
        }
        Stmt::While(at, test, body) => {
            Stmt::While(*at, copy_expr(alloc, test)?, boxed_stmt(alloc, body.get())?)
        }
        Stmt::For(at, init, test, update, body) => Stmt::For(
            *at,
            copy_init(alloc, init)?,
            copy_part(alloc, test)?,
            copy_part(alloc, update)?,
            boxed_stmt(alloc, body.get())?,
        ),
        Stmt::ForIn(at, goal, object, body) => Stmt::ForIn(
            *at,
            copy_goal(alloc, goal)?,
            copy_expr(alloc, object)?,
            boxed_stmt(alloc, body.get())?,
        ),
        Stmt::Continue(at) => Stmt::Continue(*at),
        Stmt::Break(at) => Stmt::Break(*at),
        Stmt::Return(at) => Stmt::Return(*at),
        Stmt::ReturnValue(at, value) => Stmt::ReturnValue(*at, copy_expr(alloc, value)?),
        Stmt::Throw(at, value) => Stmt::Throw(*at, copy_expr(alloc, value)?),
        Stmt::FunctionDeclaration(function) => {
            Stmt::FunctionDeclaration(copy_function(alloc, function)?)
        }
    })
}

#[cycle(copy)]
fn boxed_stmt(alloc: Global, tree: &Stmt) -> Result<Boxed<Stmt>, NoMemory>
    ensures { IfOk result (λ t. t ≡ tree.now) }
{
    let made = copy_stmt(alloc, tree)?;
    Ok(Boxed::new(alloc, made)?)
}

#[cycle(copy)]
fn copy_body(alloc: Global, body: &[Stmt]) -> Result<Items<Stmt>, NoMemory>
    ensures { IfOk result (λ t. t ≡ body.now) }
{
    let mut made = Items::new(alloc);
    for one in body {
        made.push(copy_stmt(alloc, one)?)?;
    }
    Ok(made)
}

#[cycle(copy)]
fn copy_init(alloc: Global, init: &Init) -> Result<Init, NoMemory>
    ensures { IfOk result (λ t. t ≡ init.now) }
{
    match init {
        Init::Absent => Ok(Init::Absent),
        Init::Declarations(at, all) => {
            Ok(Init::Declarations(*at, copy_declarations(alloc, all.as_slice())?))
        }
        Init::Initial(value) => Ok(Init::Initial(copy_expr(alloc, value)?)),
    }
}

#[cycle(copy)]
fn copy_goal(alloc: Global, goal: &Goal) -> Result<Goal, NoMemory>
    ensures { IfOk result (λ t. t ≡ goal.now) }
{
    match goal {
        Goal::Variable(at, name_at, name) => {
            Ok(Goal::Variable(*at, *name_at, name.copy(alloc)?))
        }
        Goal::Target(value) => Ok(Goal::Target(copy_expr(alloc, value)?)),
    }
}

#[cycle(copy)]
fn copy_declarations(alloc: Global, all: &[Declaration]) -> Result<Items<Declaration>, NoMemory>
    ensures { IfOk result (λ t. t ≡ all.now) }
{
    let mut made = Items::new(alloc);
    for one in all {
        let name = one.name.copy(alloc)?;
        let value = copy_part(alloc, &one.value)?;
        made.push(Declaration {
            at: one.at,
            name,
            value,
        })?;
    }
    Ok(made)
}
