//! Trees as texts, for tests. A form stands in parentheses, first what it is and then its parts,
//! each after a space; a form without parts stands as it is spelled.

use mdg_tree::{Declaration, Expr, Function, Goal, Init, Key, Property, Stmt};
use std::test::Fail;

/// The statements in their order.
#[cycle(tree_listing)]
pub fn body(out: &mut String, all: &[Stmt]) -> Result<(), Fail> {
    for one in all {
        stmt(out, one)?;
    }
    Ok(())
}

#[cycle(tree_listing)]
fn stmt(out: &mut String, tree: &Stmt) -> Result<(), Fail> {
    match tree {
        Stmt::Empty(..) => return Ok(write!(out, " ;")?),
        Stmt::Continue(..) => return Ok(write!(out, " continue")?),
        Stmt::Break(..) => return Ok(write!(out, " break")?),
        Stmt::Return(..) => return Ok(write!(out, " return")?),
        Stmt::Expression(_, value) => return expr(out, value),
        Stmt::FunctionDeclaration(made) => return function(out, "declared", made),
        Stmt::Block(_, all) => {
            write!(out, " (block")?;
            body(out, all.as_slice())?;
        }
        Stmt::Var(_, all) => {
            write!(out, " (var")?;
            declarations(out, all.as_slice())?;
        }
        Stmt::ReturnValue(_, value) => {
            write!(out, " (return")?;
            expr(out, value)?;
        }
        Stmt::Throw(_, value) => {
            write!(out, " (throw")?;
            expr(out, value)?;
        }
        _ => branch(out, tree)?,
    }
    write!(out, ")")?;
    Ok(())
}

/// What a statement that holds others begins with, but for a block.
#[cycle(tree_listing)]
fn branch(out: &mut String, tree: &Stmt) -> Result<(), Fail> {
    match tree {
        Stmt::If(_, test, then) => {
            write!(out, " (if")?;
            expr(out, test)?;
            stmt(out, then.get())?;
        }
        Stmt::IfElse(_, test, then, other) => {
            write!(out, " (if")?;
            expr(out, test)?;
            stmt(out, then.get())?;
            write!(out, " else")?;
            stmt(out, other.get())?;
        }
        Stmt::DoWhile(_, part, test) => {
            write!(out, " (do")?;
            stmt(out, part.get())?;
            expr(out, test)?;
        }
        Stmt::While(_, test, part) => {
            write!(out, " (while")?;
            expr(out, test)?;
            stmt(out, part.get())?;
        }
        Stmt::For(_, init, test, update, part) => {
            write!(out, " (for")?;
            start(out, init)?;
            optional(out, test)?;
            optional(out, update)?;
            stmt(out, part.get())?;
        }
        Stmt::ForIn(_, goal, object, part) => {
            write!(out, " (for-in")?;
            match goal {
                Goal::Variable(_, _, name) => write!(out, " (var {})", name.as_str())?,
                Goal::Target(value) => expr(out, value)?,
            }
            expr(out, object)?;
            stmt(out, part.get())?;
        }
        _ => return Ok(()),
    }
    Ok(())
}

/// What a `for` begins with, or `-`.
#[cycle(tree_listing)]
fn start(out: &mut String, init: &Init) -> Result<(), Fail> {
    match init {
        Init::Absent => write!(out, " -")?,
        Init::Declarations(_, all) => {
            write!(out, " (var")?;
            declarations(out, all.as_slice())?;
            write!(out, ")")?;
        }
        Init::Initial(value) => expr(out, value)?,
    }
    Ok(())
}

/// The expression, or `-`.
#[cycle(tree_listing)]
fn optional(out: &mut String, tree: &Option<Expr>) -> Result<(), Fail> {
    match tree {
        None => Ok(write!(out, " -")?),
        Some(value) => expr(out, value),
    }
}

#[cycle(tree_listing)]
fn declarations(out: &mut String, all: &[Declaration]) -> Result<(), Fail> {
    for one in all {
        write!(out, " {}", one.name.as_str())?;
        if let Some(value) = &one.value {
            write!(out, "=")?;
            expr(out, value)?;
        }
    }
    Ok(())
}

/// A function with its line, and the offsets of its word, its name and its parameters.
#[cycle(tree_listing)]
fn function(out: &mut String, word: &str, made: &Function) -> Result<(), Fail> {
    write!(out, " ({word}:{}@{} ", made.line, made.offset)?;
    if let Some(name) = &made.name {
        write!(out, "{}", name.as_str())?;
    }
    write!(out, "@{}", made.name_offset)?;
    for name in made.parameters.as_slice() {
        write!(out, " {}", name.as_str())?;
    }
    for offset in made.parameter_offsets.as_slice() {
        write!(out, " @{offset}")?;
    }
    write!(out, ":")?;
    body(out, made.body.as_slice())?;
    write!(out, ")")?;
    Ok(())
}

/// What an expression begins with: `(` and its form, or the whole of one without parts.
fn open(out: &mut String, tree: &Expr) -> Result<(), Fail> {
    match tree {
        Expr::Comma(..) => write!(out, " (,")?,
        Expr::Assign(_, op, ..) => write!(out, " (assign {op:?}")?,
        Expr::Conditional(..) => write!(out, " (?")?,
        Expr::Binary(_, op, ..) => write!(out, " ({op:?}")?,
        Expr::Unary(_, op, _) => write!(out, " ({op:?}")?,
        Expr::Prefix(_, step, _) => write!(out, " (prefix {step:?}")?,
        Expr::Postfix(_, step, _) => write!(out, " (postfix {step:?}")?,
        Expr::New(..) => write!(out, " (new")?,
        Expr::NewWithArguments(..) => write!(out, " (new()")?,
        Expr::Call(..) => write!(out, " (call")?,
        Expr::Index(..) => write!(out, " ([]")?,
        Expr::Member(_, _, name) => write!(out, " (.{}", name.as_str())?,
        Expr::Paren(..) => write!(out, " (paren")?,
        Expr::Array(..) => write!(out, " (array")?,
        Expr::Object(..) => write!(out, " (object")?,
        Expr::FunctionExpression(_) => return Ok(()),
        Expr::Name(_, text) | Expr::Numeral(_, text) => write!(out, " {}", text.as_str())?,
        Expr::Text(_, text) => write!(out, " '{}'", text.as_str())?,
        Expr::Null(_) => write!(out, " null")?,
        Expr::True(_) => write!(out, " true")?,
        Expr::False(_) => write!(out, " false")?,
    }
    Ok(())
}

/// An expression.
#[cycle(tree_listing)]
pub fn expr(out: &mut String, tree: &Expr) -> Result<(), Fail> {
    open(out, tree)?;
    match tree {
        Expr::Assign(_, _, a, b) | Expr::Binary(_, _, a, b) | Expr::Index(_, a, b) => {
            expr(out, a.get())?;
            expr(out, b.get())?;
        }
        Expr::Conditional(_, test, a, b) => {
            expr(out, test.get())?;
            expr(out, a.get())?;
            expr(out, b.get())?;
        }
        Expr::Unary(_, _, a)
        | Expr::Prefix(_, _, a)
        | Expr::Postfix(_, _, a)
        | Expr::New(_, a)
        | Expr::Member(_, a, _)
        | Expr::Paren(_, a) => expr(out, a.get())?,
        Expr::NewWithArguments(_, a, all) | Expr::Call(_, a, all) => {
            expr(out, a.get())?;
            exprs(out, all.as_slice())?;
        }
        Expr::Comma(_, all) | Expr::Array(_, all) => exprs(out, all.as_slice())?,
        Expr::Object(_, all) => properties(out, all.as_slice())?,
        Expr::FunctionExpression(made) => return function(out, "function", made),
        _ => return Ok(()),
    }
    write!(out, ")")?;
    Ok(())
}

#[cycle(tree_listing)]
fn exprs(out: &mut String, all: &[Expr]) -> Result<(), Fail> {
    for one in all {
        expr(out, one)?;
    }
    Ok(())
}

#[cycle(tree_listing)]
fn properties(out: &mut String, all: &[Property]) -> Result<(), Fail> {
    for one in all {
        match &one.key {
            Key::Name(text) | Key::Numeral(text) => write!(out, " {}:", text.as_str())?,
            Key::Text(text) => write!(out, " '{}':", text.as_str())?,
        }
        expr(out, &one.value)?;
    }
    Ok(())
}
