//! What a part of a tree is to the parts around it. All parentheses are looked through.

ghost use Rattle.std.specs.Prelude.{◌≡◌};
ghost use Rattle.std.specs.Option.{option_copied};
ghost use Rattle.mdg_tree.specs.Views as views;

use crate::tree::{Expr, Key};
use mdg_base::Text;

/// The name of a property (11.1.5): the value of a text, and a numeral as it is spelled.
pub fn key_name(key: &Key) -> &Text
    ensures { result.now ≡ views.key_name key.now }
{
    match key {
        Key::Name(text) | Key::Text(text) | Key::Numeral(text) => text,
    }
}

/// The name that the expression is (11.1.2), if it is one.
#[tactic(auto, using(crate::proofs::ViewEquations::names))]
pub fn name_of(tree: &Expr) -> Option<&Text>
    ensures { option_copied result ≡ views.name_of tree.now }
{
    match tree {
        Expr::Name(_, name) => Some(name),
        Expr::Paren(_, inner) => name_of(inner.get()),
        Expr::Comma(..)
        | Expr::Assign(..)
        | Expr::Conditional(..)
        | Expr::Binary(..)
        | Expr::Unary(..)
        | Expr::Prefix(..)
        | Expr::Postfix(..)
        | Expr::New(..)
        | Expr::NewWithArguments(..)
        | Expr::Call(..)
        | Expr::Index(..)
        | Expr::Member(..)
        | Expr::FunctionExpression(..)
        | Expr::Text(..)
        | Expr::Null(..)
        | Expr::True(..)
        | Expr::False(..)
        | Expr::Numeral(..)
        | Expr::Array(..)
        | Expr::Object(..) => None,
    }
}

/// The value of the string literal that the expression is (7.8.4), if it is one.
#[tactic(auto, using(crate::proofs::ViewEquations::strings))]
pub fn string_of(tree: &Expr) -> Option<&Text>
    ensures { option_copied result ≡ views.string_of tree.now }
{
    match tree {
        Expr::Text(_, text) => Some(text),
        Expr::Paren(_, inner) => string_of(inner.get()),
        Expr::Comma(..)
        | Expr::Assign(..)
        | Expr::Conditional(..)
        | Expr::Binary(..)
        | Expr::Unary(..)
        | Expr::Prefix(..)
        | Expr::Postfix(..)
        | Expr::New(..)
        | Expr::NewWithArguments(..)
        | Expr::Call(..)
        | Expr::Index(..)
        | Expr::Member(..)
        | Expr::FunctionExpression(..)
        | Expr::Name(..)
        | Expr::Null(..)
        | Expr::True(..)
        | Expr::False(..)
        | Expr::Numeral(..)
        | Expr::Array(..)
        | Expr::Object(..) => None,
    }
}
