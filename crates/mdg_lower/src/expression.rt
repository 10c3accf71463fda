//! The lowering of expressions (11).

mod access;
mod assignment;
mod list;
mod operand;
mod operation;

ghost use Rattle.std.specs.Prelude.{◌≡◌, ◌+◌, [], ◌∷◌, Some, None, OnOk, IfOk, map};
ghost use Rattle.mdg_lower.specs.Builder.{Emits};
ghost use Rattle.mdg_lower.specs.Forms as forms;
ghost use Rattle.mdg_lower.specs.Trees as trees;
ghost use Rattle.mdg_lower.specs.Instructions as instructions;

use crate::draft::DraftLine;
use crate::expression::access::{call, index, member, plain_call};
use crate::expression::assignment::{assignment, postfix, prefix};
use crate::expression::list::{array, comma, initialiser};
pub use crate::expression::operand::{lower_base, lower_key};
use crate::expression::operation::{binary, conditional, unary};
use crate::instruction::{any_primitive, function_value, literal, load_name};
use crate::reference::{keyword_at, numeral_text};
use crate::scope::Scope;
use mdg_base::{NoMemory, Text};
use mdg_tree::{At, Expr};
use std::alloc::Global;

/// A numeral. One that isn't plain is any primitive.
fn numeral<'a>(
    lines: &mut Vec<DraftLine>,
    scope: &Scope<'a>,
    alloc: Global,
    at: At,
    text: &Text,
    dest: u32,
) -> Result<(), NoMemory>
    ensures { OnOk result (Emits
        (instructions.literal scope.now at (forms.numeral_text text.now) dest)
        lines.old.items lines.new.items) }
{
    match numeral_text(text) {
        Some(text) => literal(lines, scope, alloc, at, text.as_str(), dest),
        None => any_primitive(lines, scope, at, dest),
    }
}

/// The lines that leave the value of the expression in a temporary and use no lower one.
#[cycle(expression)]
#[tactic(auto, using(crate::proofs::FormRulesets::values))]
pub fn value<'a>(
    lines: &mut Vec<DraftLine>,
    scope: &Scope<'a>,
    alloc: Global,
    tree: &Expr,
    dest: u32,
) -> Result<(), NoMemory>
    ensures { OnOk result (Emits (trees.value_of tree.now scope.now dest) lines.old.items lines.new.items) }
{
    match tree {
        Expr::Comma(_, all) => comma(lines, scope, alloc, all.as_slice(), dest),
        Expr::Assign(at, operator, target, assigned) => {
            assignment(
                lines,
                scope,
                alloc,
                *at,
                *operator,
                target.get(),
                assigned.get(),
                dest,
            )
        }
        Expr::Conditional(at, test, chosen, otherwise) => {
            conditional(
                lines,
                scope,
                alloc,
                *at,
                test.get(),
                chosen.get(),
                otherwise.get(),
                dest,
            )
        }
        Expr::Binary(at, operator, left, right) => {
            binary(
                lines,
                scope,
                alloc,
                *at,
                *operator,
                left.get(),
                right.get(),
                dest,
            )
        }
        Expr::Unary(at, operator, operand) => unary(
            lines,
            scope,
            alloc,
            *at,
            *operator,
            operand.get(),
            dest,
        ),
        Expr::Prefix(at, _, target) => prefix(lines, scope, alloc, *at, target.get(), dest),
        Expr::Postfix(at, _, target) => postfix(lines, scope, alloc, *at, target.get(), dest),
        Expr::New(at, callee) => plain_call(lines, scope, alloc, *at, callee.get(), &[], dest),
        Expr::NewWithArguments(at, callee, all) => {
            plain_call(lines, scope, alloc, *at, callee.get(), all.as_slice(), dest)
        }
        Expr::Call(at, callee, all) => call(
            lines,
            scope,
            alloc,
            *at,
            callee.get(),
            all.as_slice(),
            dest,
        ),
        Expr::Index(at, object, key) => index(
            lines,
            scope,
            alloc,
            *at,
            object.get(),
            key.get(),
            dest,
        ),
        Expr::Member(at, object, name) => member(
            lines,
            scope,
            alloc,
            *at,
            object.get(),
            name.as_str(),
            dest,
        ),
        Expr::FunctionExpression(function) => {
            function_value(
                lines,
                scope,
                keyword_at(function),
                keyword_at(function),
                dest,
            )
        }
        Expr::Name(at, name) => load_name(lines, scope, alloc, *at, name.as_str(), dest),
        Expr::Null(at) => literal(lines, scope, alloc, *at, "null", dest),
        Expr::True(at) => literal(lines, scope, alloc, *at, "true", dest),
        Expr::False(at) => literal(lines, scope, alloc, *at, "false", dest),
        Expr::Numeral(at, text) => numeral(lines, scope, alloc, *at, text, dest),
        Expr::Text(at, text) => literal(lines, scope, alloc, *at, text.as_str(), dest),
        Expr::Paren(_, inner) => value(lines, scope, alloc, inner.get(), dest),
        Expr::Array(at, all) => array(lines, scope, alloc, *at, all.as_slice(), dest),
        Expr::Object(at, all) => initialiser(lines, scope, alloc, *at, all.as_slice(), dest),
    }
}
