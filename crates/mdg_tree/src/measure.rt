//! The height of a tree.

ghost use Rattle.std.specs.Prelude.{◌≡◌, ◌+◌, ◌≤◌, ℕ, Option, map, min, option_map};
ghost use Rattle.mdg_tree.specs.Height as heights;

use crate::tree::{Declaration, Expr, FileTree, Function, Goal, Init, Property, Stmt};

/// Heights are counted up to this number, so that a count always fits.
const CAP: u32 = 1000;

/// The height of a file's tree. A form without parts has height 1, any other one more than its
/// highest part, and a file one more than its highest item. Forms are the variants of `Expr` and
/// `Stmt`; declarations, properties, arguments, and the goal of a `for` add nothing of their own,
/// and a `var` within a `for` counts as the statement.
#[tactic(auto, unfolding(crate::specs::Height::file_height))]
pub fn height(tree: &FileTree) -> u32
    requires { heights.file_height tree.now ≤ 256 }
    ensures { result ≡ heights.file_height tree.now }
{
    above(of_body(tree.items.as_slice()))
}

/// One more, up to the cap.
fn above(part: u32) -> u32
    requires { part ≤ 1000 }
    ensures { result ≡ min (part + 1) 1000 }
{
    (part + 1).min(CAP)
}

#[cycle(height)]
#[tactic(auto, using(crate::proofs::Heights::heights))]
fn of_expr(tree: &Expr) -> u32
    ensures { result ≡ min (heights.height tree.now) 1000 }
{
    match tree {
        Expr::Name(..)
        | Expr::Null(..)
        | Expr::True(..)
        | Expr::False(..)
        | Expr::Numeral(..)
        | Expr::Text(..) => 1,
        Expr::Comma(_, all) | Expr::Array(_, all) => above(of_all(all.as_slice())),
        Expr::Object(_, all) => above(of_properties(all.as_slice())),
        Expr::FunctionExpression(function) => of_function(function),
        Expr::Unary(_, _, part)
        | Expr::Prefix(_, _, part)
        | Expr::Postfix(_, _, part)
        | Expr::New(_, part)
        | Expr::Member(_, part, _)
        | Expr::Paren(_, part) => above(of_expr(part.get())),
        Expr::Assign(_, _, a, b) | Expr::Binary(_, _, a, b) | Expr::Index(_, a, b) => {
            above(of_expr(a.get()).max(of_expr(b.get())))
        }
        Expr::Conditional(_, test, a, b) => {
            above(of_expr(test.get()).max(of_expr(a.get()).max(of_expr(b.get()))))
        }
        Expr::NewWithArguments(_, callee, all) | Expr::Call(_, callee, all) => {
            above(of_expr(callee.get()).max(of_all(all.as_slice())))
        }
    }
}

#[cycle(height)]
#[tactic(auto, using(crate::proofs::Heights::heights))]
fn of_all(all: &[Expr]) -> u32
    ensures { result ≡ min (heights.highest (map heights.height all.now)) 1000 }
{
    let mut most = 0;
    for one in all {
        most = of_expr(one).max(most);
    }
    most
}

#[cycle(height)]
#[tactic(auto, using(crate::proofs::Heights::heights))]
fn of_properties(all: &[Property]) -> u32
    ensures { result ≡ min (heights.highest (map heights.property_height all.now)) 1000 }
{
    let mut most = 0;
    for one in all {
        most = of_property(one).max(most);
    }
    most
}

#[cycle(height)]
#[tactic(auto, using(crate::proofs::Heights::heights))]
fn of_property(one: &Property) -> u32
    ensures { result ≡ min (heights.property_height one.now) 1000 }
{
    of_expr(&one.value)
}

#[cycle(height)]
#[tactic(auto, using(crate::proofs::Heights::heights))]
fn of_function(function: &Function) -> u32
    ensures { result ≡ min (heights.function_height function.now) 1000 }
{
    above(of_body(function.body.as_slice()))
}

#[cycle(height)]
#[tactic(auto, using(crate::proofs::Heights::heights))]
fn of_optional(tree: &Option<Expr>) -> u32
    ensures { result ≡ min (heights.optional (option_map heights.height tree.now)) 1000 }
{
    match tree {
        Some(part) => of_expr(part),
        None => 0,
    }
}

#[cycle(height)]
#[tactic(auto, using(crate::proofs::Heights::heights))]
fn of_stmt(tree: &Stmt) -> u32
    ensures { result ≡ min (heights.stmt_height tree.now) 1000 }
{
    match tree {
        Stmt::Empty(..) | Stmt::Continue(..) | Stmt::Break(..) | Stmt::Return(..) => 1,
        Stmt::Block(_, body) => above(of_body(body.as_slice())),
        Stmt::Var(_, all) => above(of_declarations(all.as_slice())),
        Stmt::FunctionDeclaration(function) => of_function(function),
        Stmt::Expression(_, value) | Stmt::ReturnValue(_, value) | Stmt::Throw(_, value) => {
            above(of_expr(value))
        }
        Stmt::If(_, test, body) | Stmt::While(_, test, body) => {
            above(of_expr(test).max(of_stmt(body.get())))
        }
        Stmt::DoWhile(_, body, test) => above(of_stmt(body.get()).max(of_expr(test))),
        Stmt::IfElse(_, test, body, other) => {
            above(of_expr(test).max(of_stmt(body.get()).max(of_stmt(other.get()))))
        }
        Stmt::For(_, init, test, update, body) => {
            let tests = of_optional(test).max(of_optional(update));
            let head = of_init(init).max(tests);
            above(head.max(of_stmt(body.get())))
        }
        Stmt::ForIn(_, goal, object, body) => {
            above(of_goal(goal).max(of_expr(object).max(of_stmt(body.get()))))
        }
    }
}

#[cycle(height)]
#[tactic(auto, using(crate::proofs::Heights::heights))]
fn of_body(body: &[Stmt]) -> u32
    ensures { result ≡ min (heights.highest (map heights.stmt_height body.now)) 1000 }
{
    let mut most = 0;
    for one in body {
        most = of_stmt(one).max(most);
    }
    most
}

#[cycle(height)]
#[tactic(auto, using(crate::proofs::Heights::heights))]
fn of_init(init: &Init) -> u32
    ensures { result ≡ min (heights.init_height init.now) 1000 }
{
    match init {
        Init::Absent => 0,
        Init::Declarations(_, all) => above(of_declarations(all.as_slice())),
        Init::Initial(value) => of_expr(value),
    }
}

#[cycle(height)]
#[tactic(auto, using(crate::proofs::Heights::heights))]
fn of_goal(goal: &Goal) -> u32
    ensures { result ≡ min (heights.goal_height goal.now) 1000 }
{
    match goal {
        Goal::Variable(..) => 0,
        Goal::Target(value) => of_expr(value),
    }
}

#[cycle(height)]
#[tactic(auto, using(crate::proofs::Heights::heights))]
fn of_declarations(all: &[Declaration]) -> u32
    ensures { result ≡ min (heights.highest (map heights.declaration_height all.now)) 1000 }
{
    let mut most = 0;
    for one in all {
        most = of_declaration(one).max(most);
    }
    most
}

#[cycle(height)]
#[tactic(auto, using(crate::proofs::Heights::heights))]
fn of_declaration(one: &Declaration) -> u32
    ensures { result ≡ min (heights.declaration_height one.now) 1000 }
{
    of_optional(&one.value)
}
