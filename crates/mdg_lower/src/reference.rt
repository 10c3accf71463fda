//! What an expression is to the forms around it: a name, a key, a reference (8.7).

ghost use Rattle.std.specs.Prelude.{◌≡◌};
ghost use Rattle.std.specs.Option.{option_copied};
ghost use Rattle.mdg_tree.specs.declared.tree.Expr.{size-Expr};
ghost use Rattle.mdg_lower.specs.Forms as forms;
ghost use Rattle.mdg_lower.specs.Trees as trees;
ghost use Rattle.mdg_lower.specs.Reference.{IsBelow, reference_of_tree};

use crate::column::is_plain;
use mdg_base::Text;
use mdg_tree::{At, Expr, Function};

/// An expression as the target of an assignment or as a callee.
#[derive(Clone, Copy)]
pub enum Reference<'a> {
    /// The place of a name, and the name.
    Named(At, &'a Text),

    /// A property with a static name.
    Member(&'a Expr, &'a Text),

    /// A property with a computed name.
    Keyed(&'a Expr, &'a Expr),
    Other,
}

/// Where the keyword of a function stands.
pub fn keyword_at(function: &Function) -> At
    ensures { result ≡ forms.keyword_at function.now }
{
    At {
        line: function.line,
        offset: function.offset,
    }
}

/// The name that the expression is.
#[tactic(auto, using(crate::proofs::FormRulesets::names))]
pub fn name_of(tree: &Expr) -> Option<&Text>
    ensures { option_copied result ≡ trees.name_of tree.now }
{
    match tree {
        Expr::Name(_, name) => Some(name),
        Expr::Paren(_, inner) => name_of(inner.get()),
        Expr::Comma(..)
        | Expr::Assign(..)
        | Expr::Conditional(..)
        | Expr::Binary(..)
        | Expr::Unary(..)
        | Expr::Prefix(..)
        | Expr::Postfix(..)
        | Expr::New(..)
        | Expr::NewWithArguments(..)
        | Expr::Call(..)
        | Expr::Index(..)
        | Expr::Member(..)
        | Expr::FunctionExpression(..)
        | Expr::Null(..)
        | Expr::True(..)
        | Expr::False(..)
        | Expr::Numeral(..)
        | Expr::Text(..)
        | Expr::Array(..)
        | Expr::Object(..) => None,
    }
}

/// The text of a numeral, which is the key that it gives, where it is a plain one.
pub fn numeral_text(text: &Text) -> Option<&Text>
    ensures { option_copied result ≡ forms.numeral_text text.now }
{
    if is_plain(text.as_str()) {
        Some(text)
    } else {
        None
    }
}

/// The property name that the expression spells.
#[tactic(auto, using(crate::proofs::FormRulesets::keys))]
pub fn key_of(tree: &Expr) -> Option<&Text>
    ensures { option_copied result ≡ trees.key_of tree.now }
{
    match tree {
        Expr::Text(_, text) => Some(text),
        Expr::Numeral(_, text) => numeral_text(text),
        Expr::Paren(_, inner) => key_of(inner.get()),
        Expr::Comma(..)
        | Expr::Assign(..)
        | Expr::Conditional(..)
        | Expr::Binary(..)
        | Expr::Unary(..)
        | Expr::Prefix(..)
        | Expr::Postfix(..)
        | Expr::New(..)
        | Expr::NewWithArguments(..)
        | Expr::Call(..)
        | Expr::Index(..)
        | Expr::Member(..)
        | Expr::FunctionExpression(..)
        | Expr::Name(..)
        | Expr::Null(..)
        | Expr::True(..)
        | Expr::False(..)
        | Expr::Array(..)
        | Expr::Object(..) => None,
    }
}

/// Where the first token of the expression stands.
#[tactic(auto, using(crate::proofs::FormRulesets::places))]
pub fn at_of(tree: &Expr) -> At
    ensures { result ≡ trees.at_of tree.now }
{
    match tree {
        Expr::Comma(at, _)
        | Expr::Assign(at, _, _, _)
        | Expr::Conditional(at, _, _, _)
        | Expr::Binary(at, _, _, _)
        | Expr::Unary(at, _, _)
        | Expr::Prefix(at, _, _)
        | Expr::Postfix(at, _, _)
        | Expr::New(at, _)
        | Expr::NewWithArguments(at, _, _)
        | Expr::Call(at, _, _)
        | Expr::Index(at, _, _)
        | Expr::Member(at, _, _)
        | Expr::Name(at, _)
        | Expr::Null(at)
        | Expr::True(at)
        | Expr::False(at)
        | Expr::Numeral(at, _)
        | Expr::Text(at, _)
        | Expr::Paren(at, _)
        | Expr::Array(at, _)
        | Expr::Object(at, _) => *at,
        Expr::FunctionExpression(function) => keyword_at(function),
    }
}

/// The expression as the target of an assignment or as a callee, all parentheses looked through.
#[tactic(auto, using(crate::proofs::FormRulesets::references, crate::proofs::ReferenceLemmas::shapes))]
pub fn reference_of(tree: &Expr) -> Reference<'_>
    ensures is { reference_of_tree result ≡ trees.reference_of tree.now }
    ensures smaller { IsBelow (size-Expr tree.now) result }
{
    match tree {
        Expr::Name(at, name) => Reference::Named(*at, name),
        Expr::Member(_, object, name) => Reference::Member(object.get(), name),
        Expr::Index(_, object, key) => match key_of(key.get()) {
            Some(name) => Reference::Member(object.get(), name),
            None => Reference::Keyed(object.get(), key.get()),
        },
        Expr::Paren(_, inner) => reference_of(inner.get()),
        Expr::Comma(..)
        | Expr::Assign(..)
        | Expr::Conditional(..)
        | Expr::Binary(..)
        | Expr::Unary(..)
        | Expr::Prefix(..)
        | Expr::Postfix(..)
        | Expr::New(..)
        | Expr::NewWithArguments(..)
        | Expr::Call(..)
        | Expr::FunctionExpression(..)
        | Expr::Null(..)
        | Expr::True(..)
        | Expr::False(..)
        | Expr::Numeral(..)
        | Expr::Text(..)
        | Expr::Array(..)
        | Expr::Object(..) => Reference::Other,
    }
}
