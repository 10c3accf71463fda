//! Which names an expression assigns, and which local stands for an expression until it is used.

ghost use Rattle.std.specs.Prelude.{◌≡◌, ◌||◌, ◌++◌, IfOk, map};
ghost use Rattle.mdg_lower.specs.Assigned.{listed};
ghost use Rattle.mdg_lower.specs.Forms as forms;
ghost use Rattle.mdg_lower.specs.Trees as trees;
ghost use Rattle.mdg_lower.specs.Operands as operands;
ghost use Rattle.mdg_lower.specs.Access as access;

use crate::lookup::{local_of, meaning};
use crate::reference::{Reference, name_of, reference_of};
use crate::scope::Scope;
use mdg_base::{Local, NoMemory};
use mdg_tree::{Expr, Property};

fn or(one: bool, other: bool) -> bool
    ensures { result ≡ (one || other) }
{
    one || other
}

/// Whether the expression assigns the name, nested functions left out.
#[cycle(assigned)]
#[tactic(auto, using(crate::proofs::FormRulesets::assigned))]
fn assigns(tree: &Expr, name: &str) -> bool
    ensures { result ≡ trees.assigns_of tree.now name.now }
{
    match tree {
        Expr::Comma(_, all) | Expr::Array(_, all) => any_assigns(all.as_slice(), name),
        Expr::Assign(_, _, target, value) => {
            or(assigned_by(target.get(), name), assigns(value.get(), name))
        }
        Expr::Conditional(_, test, chosen, otherwise) => or(
            assigns(test.get(), name),
            or(assigns(chosen.get(), name), assigns(otherwise.get(), name)),
        ),
        Expr::Binary(_, _, left, right) | Expr::Index(_, left, right) => {
            or(assigns(left.get(), name), assigns(right.get(), name))
        }
        Expr::Unary(_, _, value)
        | Expr::New(_, value)
        | Expr::Member(_, value, _)
        | Expr::Paren(_, value) => assigns(value.get(), name),
        Expr::Prefix(_, _, target) | Expr::Postfix(_, _, target) => {
            assigned_by(target.get(), name)
        }
        Expr::NewWithArguments(_, callee, all) | Expr::Call(_, callee, all) => {
            or(
                assigns(callee.get(), name),
                any_assigns(all.as_slice(), name),
            )
        }
        Expr::Object(_, all) => any_property_assigns(all.as_slice(), name),
        Expr::FunctionExpression(..)
        | Expr::Name(..)
        | Expr::Null(..)
        | Expr::True(..)
        | Expr::False(..)
        | Expr::Numeral(..)
        | Expr::Text(..) => false,
    }
}

/// Whether an assignment to the target assigns the name.
#[cycle(assigned)]
fn assigned_by(target: &Expr, name: &str) -> bool
    ensures { result ≡ forms.assigned_by (trees.reference_of target.now) name.now }
{
    match reference_of(target) {
        Reference::Named(_, assigned) => assigned.as_str() == name,
        Reference::Member(object, _) => assigns(object, name),
        Reference::Keyed(object, key) => or(assigns(object, name), assigns(key, name)),
        Reference::Other => false,
    }
}

#[cycle(assigned)]
fn any_assigns(all: &[Expr], name: &str) -> bool
    ensures { result ≡ operands.any_assigns (trees.operands_of all.now) name.now }
{
    for one in all {
        if assigns(one, name) {
            return true;
        }
    }
    false
}

#[cycle(assigned)]
#[tactic(auto, using(crate::proofs::FormRulesets::properties))]
fn any_property_assigns(all: &[Property], name: &str) -> bool
    ensures { result ≡ operands.any_property_assigns (map trees.property_part all.now) name.now }
{
    for one in all {
        if assigns(&one.value, name) {
            return true;
        }
    }
    false
}

fn maybe_assigns(tree: Option<&Expr>, name: &str) -> bool
    ensures { result ≡ operands.any_assigns (listed tree.entry) name.now }
{
    match tree {
        Some(tree) => assigns(tree, name),
        None => false,
    }
}

fn stable_if(later: bool, local: Option<Local>) -> Option<Local>
    ensures { result ≡ operands.stable_if later local }
{
    if later { None } else { local }
}

/// The local that stands for the expression itself, where no later part assigns it.
#[tactic(auto, using(crate::proofs::AssignedLemmas::laters), unfolding(crate::specs::Access::stable_local))]
pub fn stable_local<'a>(
    scope: &Scope<'a>,
    tree: &Expr,
    first: Option<&Expr>,
    second: Option<&Expr>,
    rest: &[Expr],
) -> Result<Option<Local>, NoMemory>
    ensures { IfOk result (λ k. k ≡ access.stable_local scope.now (trees.operand_of tree.now)
        (listed first.entry ++ (listed second.entry ++ trees.operands_of rest.now))) }
{
    match name_of(tree) {
        Some(name) => {
            let name = name.as_str();
            let one = or(maybe_assigns(first, name), maybe_assigns(second, name));
            let later = or(one, any_assigns(rest, name));
            Ok(stable_if(later, local_of(meaning(scope, name)?)))
        }
        None => Ok(None),
    }
}
