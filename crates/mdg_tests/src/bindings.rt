//! What `bind` answers, by call. The trees are those of the texts above them, with offsets of their own.

ghost use Rattle.std.specs.Prelude.{◌<◌};

use mdg_base::{NoMemory, Text};
use mdg_profile::default_profile;
use mdg_scope::{Bound, BoundFunction, Goal, ScopeRefusal, bind};
use mdg_tree::{
    AssignOperator, At, BinaryOperator, Declaration, Expr, FileTree, Function, Key, Property, Stmt,
    UnaryOperator,
};
use sqlite_items::{Boxed, Items};
use std::alloc::Global;
use std::test::Fail;

fn at(offset: u32) -> At {
    At { line: 2, offset }
}

fn name(alloc: Global, offset: u32, text: &str) -> Result<Expr, NoMemory> {
    Ok(Expr::Name(at(offset), Text::of(alloc, text)?))
}

fn text(alloc: Global, offset: u32, value: &str) -> Result<Expr, NoMemory> {
    Ok(Expr::Text(at(offset), Text::of(alloc, value)?))
}

fn boxed<T: Drop>(alloc: Global, inner: T) -> Result<Boxed<T>, NoMemory> {
    Ok(Boxed::new(alloc, inner)?)
}

fn paren(alloc: Global, inner: Expr) -> Result<Expr, NoMemory> {
    Ok(Expr::Paren(at(0), boxed(alloc, inner)?))
}

fn unary(
    alloc: Global,
    offset: u32,
    operator: UnaryOperator,
    value: Expr,
) -> Result<Expr, NoMemory> {
    Ok(Expr::Unary(at(offset), operator, boxed(alloc, value)?))
}

fn list<T: Drop>(alloc: Global, item: T) -> Result<Items<T>, NoMemory> {
    let mut items = Items::new(alloc);
    items.push(item)?;
    Ok(items)
}

fn pair<T: Drop>(alloc: Global, first: T, second: T) -> Result<Items<T>, NoMemory> {
    let mut items = list(alloc, first)?;
    items.push(second)?;
    Ok(items)
}

fn call(alloc: Global, callee: Expr, argument: Expr) -> Result<Expr, NoMemory> {
    Ok(Expr::Call(at(0), boxed(alloc, callee)?, list(alloc, argument)?))
}

fn var(alloc: Global, offset: u32, text: &str, value: Option<Expr>) -> Result<Stmt, NoMemory> {
    let name = Text::of(alloc, text)?;
    let declaration = Declaration {
        at: at(offset),
        name,
        value,
    };
    Ok(Stmt::Var(at(offset), list(alloc, declaration)?))
}

fn said(expression: Expr) -> Stmt {
    Stmt::Expression(at(0), expression)
}

fn given(expression: Expr) -> Stmt {
    Stmt::ReturnValue(at(0), expression)
}

/// A function whose keyword stands at the offset, its name 10 after it, its parameters from 20 after it.
fn function(
    alloc: Global,
    offset: u32,
    name: &str,
    parameters: &[&str],
    body: Items<Stmt>,
) -> Result<Function, NoMemory>
    requires { offset < 1000 }
{
    let mut made = mdg_base::Items::create(alloc);
    let mut offsets = mdg_base::Items::create(alloc);
    for (index, parameter) in parameters.iter().enumerate() {
        made.push(Text::of(alloc, parameter)?)?;
        offsets.push(offset + 20 + index.min(9) as u32)?;
    }
    let name = if name.is_empty() {
        None
    } else {
        Some(Text::of(alloc, name)?)
    };
    Ok(Function {
        name,
        name_offset: offset + 10,
        parameters: made,
        parameter_offsets: offsets,
        body,
        line: 2,
        offset,
    })
}

fn write_names(into: &mut Text, names: &[Text]) -> Result<(), NoMemory> {
    into.add("[")?;
    for name in names {
        into.add(name.as_str())?;
        into.add(" ")?;
    }
    into.add("]")
}

fn write_function(into: &mut Text, function: &BoundFunction) -> Result<(), NoMemory> {
    if let Some(name) = &function.name {
        into.add(name.as_str())?;
    }
    write_names(into, function.parameters.as_slice())?;
    write_names(into, function.locals.as_slice())?;
    write_names(into, function.cells.as_slice())?;
    if function.own_name {
        into.add("own")?;
    }
    into.add(";")
}

fn write_bound(into: &mut Text, bound: &Bound) -> Result<(), NoMemory> {
    for function in bound.functions.as_slice() {
        write_function(into, function)?;
    }
    for require in bound.required.as_slice() {
        let word = match require.goal {
            Goal::Bare => "bare ",
            Goal::Path => "path ",
            Goal::File(_) => "file ",
        };
        into.add(word)?;
        into.add(require.text.as_str())?;
    }
    Ok(())
}

/// The answer for a file with this item, or these two: the functions with their names, and the requires; or the
/// refusal with its name and its offset.
fn answer(alloc: Global, path: &str, items: Items<Stmt>) -> Result<(Text, u32), NoMemory> {
    let mut body = mdg_base::Items::create(alloc);
    body.push(Stmt::Block(at(0), items))?;
    let profile = default_profile(alloc)?;
    let mut told = Text::of(alloc, "")?;
    let offset = match bind(
        alloc,
        path,
        FileTree {
            at: at(0),
            items: body,
        },
        &profile,
    ) {
        Ok(bound) => {
            write_bound(&mut told, &bound)?;
            0
        }
        Err(ScopeRefusal::BadBinding(name, offset)) => {
            told.add("BadBinding ")?;
            told.add(name.as_str())?;
            offset
        }
        Err(ScopeRefusal::Unbound(name, offset)) => {
            told.add("Unbound ")?;
            told.add(name.as_str())?;
            offset
        }
        Err(ScopeRefusal::BadRequire(offset)) => {
            told.add("BadRequire")?;
            offset
        }
        Err(ScopeRefusal::BadNew(offset)) => {
            told.add("BadNew")?;
            offset
        }
        Err(ScopeRefusal::BadJump(offset)) => {
            told.add("BadJump")?;
            offset
        }
        Err(ScopeRefusal::NoMemory) => return Err(NoMemory),
    };
    Ok((told, offset))
}

#[test]
fn names_and_what_may_be_done_with_them(rt: HostRuntime) -> Result<(), Fail> {
    let alloc = rt.alloc();
    // var eval;
    let (told, offset) = answer(
        alloc,
        "index.js",
        list(alloc, var(alloc, 4, "eval", None)?)?,
    )?;
    assert_eq!(rt; (told.as_str(), offset), ("BadBinding eval", 4));
    // var x; delete (x);
    let operand = paren(alloc, name(alloc, 20, "x")?)?;
    let deleted = said(unary(alloc, 10, UnaryOperator::Delete, operand)?);
    let (told, offset) = answer(
        alloc,
        "index.js",
        pair(alloc, var(alloc, 4, "x", None)?, deleted)?,
    )?;
    assert_eq!(rt; (told.as_str(), offset), ("BadBinding x", 10));
    // y = 'v';
    let target = boxed(alloc, name(alloc, 3, "y")?)?;
    let value = boxed(alloc, text(alloc, 5, "v")?)?;
    let assigned = said(Expr::Assign(at(3), AssignOperator::Plain, target, value));
    let (told, offset) = answer(alloc, "index.js", list(alloc, assigned)?)?;
    assert_eq!(rt; (told.as_str(), offset), ("Unbound y", 3));
    // NaN = 'v';
    let target = boxed(alloc, name(alloc, 3, "NaN")?)?;
    let value = boxed(alloc, text(alloc, 5, "v")?)?;
    let assigned = said(Expr::Assign(at(3), AssignOperator::Plain, target, value));
    let (told, offset) = answer(alloc, "index.js", list(alloc, assigned)?)?;
    assert_eq!(rt; (told.as_str(), offset), ("BadBinding NaN", 3));
    // typeof (y);
    let operand = paren(alloc, name(alloc, 9, "y")?)?;
    let typed = said(unary(alloc, 2, UnaryOperator::TypeOf, operand)?);
    let (told, _) = answer(alloc, "index.js", list(alloc, typed)?)?;
    assert_eq!(rt; told.as_str(), "[][module exports ][];");
    Ok(())
}

#[test]
fn new_and_jumps(rt: HostRuntime) -> Result<(), Fail> {
    let alloc = rt.alloc();
    // function A() {} new A();
    let declared = Stmt::FunctionDeclaration(function(alloc, 5, "A", &[], Items::new(alloc))?);
    let made = said(Expr::New(at(60), boxed(alloc, name(alloc, 64, "A")?)?));
    let (told, offset) = answer(alloc, "index.js", pair(alloc, declared, made)?)?;
    assert_eq!(rt; (told.as_str(), offset), ("BadNew", 60));
    // new (Error)('x'); return;
    let callee = boxed(alloc, paren(alloc, name(alloc, 5, "Error")?)?)?;
    let made = said(Expr::NewWithArguments(at(1), callee, list(alloc, text(alloc, 9, "x")?)?));
    let (told, _) = answer(alloc, "index.js", pair(alloc, made, Stmt::Return(at(20)))?)?;
    assert_eq!(rt; told.as_str(), "[][module exports ][];");
    // break; var eval;
    let (told, offset) = answer(
        alloc,
        "index.js",
        pair(alloc, Stmt::Break(at(1)), var(alloc, 9, "eval", None)?)?,
    )?;
    assert_eq!(rt; (told.as_str(), offset), ("BadJump", 1));
    // while ('v') { break; }
    let body = boxed(alloc, Stmt::Block(at(9), list(alloc, Stmt::Break(at(10)))?))?;
    let looped = Stmt::While(at(1), text(alloc, 2, "v")?, body);
    let (told, _) = answer(alloc, "index.js", list(alloc, looped)?)?;
    assert_eq!(rt; told.as_str(), "[][module exports ][];");
    // while ('v') (function () { continue; });
    let inner = function(alloc, 20, "", &[], list(alloc, Stmt::Continue(at(50)))?)?;
    let body = boxed(alloc, said(Expr::FunctionExpression(inner)))?;
    let looped = Stmt::While(at(1), text(alloc, 2, "v")?, body);
    let (told, offset) = answer(alloc, "index.js", list(alloc, looped)?)?;
    assert_eq!(rt; (told.as_str(), offset), ("BadJump", 50));
    Ok(())
}

#[test]
fn one_name_twice(rt: HostRuntime) -> Result<(), Fail> {
    let alloc = rt.alloc();
    // function f(a, b, a) {}
    let declared = Stmt::FunctionDeclaration(function(
        alloc,
        5,
        "f",
        &["a", "b", "a"],
        Items::new(alloc),
    )?);
    let (told, offset) = answer(alloc, "index.js", list(alloc, declared)?)?;
    assert_eq!(rt; (told.as_str(), offset), ("BadBinding a", 27));
    // ({ b: 'v', 'b': 'v' });
    let first = Property {
        at: at(4),
        key: Key::Name(Text::of(alloc, "b")?),
        value: text(alloc, 7, "v")?,
    };
    let second = Property {
        at: at(12),
        key: Key::Text(Text::of(alloc, "b")?),
        value: text(alloc, 17, "v")?,
    };
    let object = said(Expr::Object(at(1), pair(alloc, first, second)?));
    let (told, offset) = answer(alloc, "index.js", list(alloc, object)?)?;
    assert_eq!(rt; (told.as_str(), offset), ("BadBinding b", 12));
    Ok(())
}

#[test]
fn locals_and_cells(rt: HostRuntime) -> Result<(), Fail> {
    let alloc = rt.alloc();
    // function f(a, b) { function g(b) { return a; } return g; }
    let inner = function(
        alloc,
        100,
        "g",
        &["b"],
        list(alloc, given(name(alloc, 150, "a")?))?,
    )?;
    let body = pair(
        alloc,
        Stmt::FunctionDeclaration(inner),
        given(name(alloc, 170, "g")?),
    )?;
    let outer = function(alloc, 5, "f", &["a", "b"], body)?;
    // var a;
    let items = pair(
        alloc,
        Stmt::FunctionDeclaration(outer),
        var(alloc, 200, "a", None)?,
    )?;
    let (told, _) = answer(alloc, "index.js", items)?;
    assert_eq!(rt;
        told.as_str(),
        "[][module exports f a ][];f[a b ][g ][a ];g[b ][][];"
    );
    Ok(())
}

#[test]
fn own_names(rt: HostRuntime) -> Result<(), Fail> {
    let alloc = rt.alloc();
    // (function own() { return own; }); (function unused() {});
    let used = function(
        alloc,
        5,
        "own",
        &[],
        list(alloc, given(name(alloc, 50, "own")?))?,
    )?;
    let unused = function(alloc, 100, "unused", &[], Items::new(alloc))?;
    let first = said(Expr::FunctionExpression(used));
    let second = said(Expr::FunctionExpression(unused));
    let (told, _) = answer(alloc, "index.js", pair(alloc, first, second)?)?;
    assert_eq!(rt;
        told.as_str(),
        "[][module exports ][];own[][own ][]own;unused[][unused ][];"
    );
    // (function m(m) { return m; });
    let bound = function(
        alloc,
        5,
        "m",
        &["m"],
        list(alloc, given(name(alloc, 50, "m")?))?,
    )?;
    let (told, _) = answer(
        alloc,
        "index.js",
        list(alloc, said(Expr::FunctionExpression(bound)))?,
    )?;
    assert_eq!(rt; told.as_str(), "[][module exports ][];m[m ][][];");
    Ok(())
}

fn numeral(alloc: Global, offset: u32, spelled: &str) -> Result<Expr, NoMemory> {
    Ok(Expr::Numeral(at(offset), Text::of(alloc, spelled)?))
}

/// `var x = 1; var f = 2; x = f;`
fn steps_of_f(alloc: Global) -> Result<Items<Stmt>, NoMemory> {
    let x = var(alloc, 40, "x", Some(numeral(alloc, 44, "1")?))?;
    let f = var(alloc, 52, "f", Some(numeral(alloc, 56, "2")?))?;
    let target = boxed(alloc, name(alloc, 59, "x")?)?;
    let value = boxed(alloc, name(alloc, 63, "f")?)?;
    let mut steps = pair(alloc, x, f)?;
    steps.push(said(Expr::Assign(at(59), AssignOperator::Plain, target, value)))?;
    Ok(steps)
}

/// `var g = (function f() { .. });`, the functions with their names.
fn bound_in_g(alloc: Global, body: Items<Stmt>) -> Result<Text, NoMemory> {
    let inner = Expr::FunctionExpression(function(alloc, 9, "f", &[], body)?);
    let bound = var(alloc, 4, "g", Some(paren(alloc, inner)?))?;
    let (told, _) = answer(alloc, "index.js", list(alloc, bound)?)?;
    Ok(told)
}

#[test]
fn own_name_that_the_function_binds_otherwise(rt: HostRuntime) -> Result<(), Fail> {
    let alloc = rt.alloc();
    // var g = (function f() { var x = 1; var f = 2; x = f; });
    let told = bound_in_g(alloc, steps_of_f(alloc)?)?;
    assert_eq!(rt; told.as_str(), "[][module exports g ][];f[][x f ][];");
    // var g = (function f() { var x = 1; var f = 2; x = f; return function () { return x + f; }; });
    let left = boxed(alloc, name(alloc, 90, "x")?)?;
    let right = boxed(alloc, name(alloc, 94, "f")?)?;
    let sum = Expr::Binary(at(90), BinaryOperator::Add, left, right);
    let inner = function(alloc, 70, "", &[], list(alloc, given(sum))?)?;
    let mut body = steps_of_f(alloc)?;
    body.push(given(Expr::FunctionExpression(inner)))?;
    let told = bound_in_g(alloc, body)?;
    assert_eq!(rt;
        told.as_str(),
        "[][module exports g ][];f[][][x f ];[][][];"
    );
    Ok(())
}

#[test]
fn place_of_the_body(rt: HostRuntime) -> Result<(), Fail> {
    let alloc = rt.alloc();
    // `// one`, an empty line, 'use strict';
    let tree = FileTree {
        at: At { line: 3, offset: 8 },
        items: mdg_base::Items::create(alloc),
    };
    let profile = default_profile(alloc)?;
    let place = match bind(alloc, "index.js", tree, &profile) {
        Ok(bound) => match bound.functions.as_slice() {
            [body] => (body.line, body.offset),
            _ => (0, 0),
        },
        Err(_) => (0, 1),
    };
    assert_eq!(rt; place, (3, 8));
    Ok(())
}

/// `require` of the text, in the file with this path.
fn required(alloc: Global, path: &str, asked: &str) -> Result<Text, NoMemory> {
    let made = call(
        alloc,
        name(alloc, 3, "require")?,
        paren(alloc, text(alloc, 11, asked)?)?,
    )?;
    let (told, _) = answer(alloc, path, list(alloc, said(made))?)?;
    Ok(told)
}

#[test]
fn requires_of_files(rt: HostRuntime) -> Result<(), Fail> {
    let alloc = rt.alloc();
    for (path, asked, told) in [
        ("index.js", "fs", "[][module exports ][];bare fs"),
        ("index.js", "node:fs", "[][module exports ][];bare fs"),
        (
            "a/b.js",
            "./data.json",
            "[][module exports ][];bare ./a/data.json",
        ),
        ("a/b.js", "../c", "[][module exports ][];path ../c"),
        ("index.js", "../up", "BadRequire"),
        ("a/b.js", "./../../up", "BadRequire"),
        ("index.js", "", "BadRequire"),
        ("index.js", "/a", "BadRequire"),
        ("index.js", "./a.node", "BadRequire"),
    ] {
        let found = required(alloc, path, asked)?;
        assert_eq!(rt; found.as_str(), told);
    }
    // var x = require;
    let (told, offset) = answer(
        alloc,
        "index.js",
        list(alloc, var(alloc, 4, "x", Some(name(alloc, 8, "require")?))?)?,
    )?;
    assert_eq!(rt; (told.as_str(), offset), ("BadRequire", 8));
    // function f(require) { require('x'); }
    let called = call(alloc, name(alloc, 50, "require")?, text(alloc, 58, "x")?)?;
    let shadowed = function(alloc, 5, "f", &["require"], list(alloc, said(called))?)?;
    let (told, _) = answer(
        alloc,
        "index.js",
        list(alloc, Stmt::FunctionDeclaration(shadowed))?,
    )?;
    assert_eq!(rt; told.as_str(), "[][module exports f ][];f[require ][][];");
    Ok(())
}
