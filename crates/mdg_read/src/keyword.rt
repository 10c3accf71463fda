//! Which terminal a keyword is (7.6.1).

ghost use Rattle.std.specs.Prelude.{◌≡◌, ◌≢◌, ◌<◌, ◌+◌, ◌-◌, true, length, map, IfOk, IfSome};
ghost use Rattle.mdg_read.specs.Terminal as table;

use crate::terminal::Terminal;
use mdg_tree::{BinaryOperator, UnaryOperator};

pub fn keyword_terminal(text: &str) -> Terminal
    ensures { result ≡ table.keyword_terminal text.now }
{
    control_words(
        text,
        value_words(text, operator_words(text, Terminal::ReservedWord)),
    )
}

/// The terminal of the keywords of statements, else the one that is given.
fn control_words(text: &str, other: Terminal) -> Terminal
    ensures { result ≡ table.listed table.control_words other text.now }
{
    if text == "break" {
        Terminal::Break
    } else if text == "continue" {
        Terminal::Continue
    } else if text == "do" {
        Terminal::Do
    } else if text == "else" {
        Terminal::Else
    } else if text == "for" {
        Terminal::For
    } else if text == "if" {
        Terminal::If
    } else if text == "return" {
        Terminal::Return
    } else if text == "throw" {
        Terminal::Throw
    } else if text == "while" {
        Terminal::While
    } else {
        other
    }
}

/// The terminal of the keywords of literals, functions, `new` and `var`, else the one that is given.
fn value_words(text: &str, other: Terminal) -> Terminal
    ensures { result ≡ table.listed table.value_words other text.now }
{
    if text == "false" {
        Terminal::False
    } else if text == "function" {
        Terminal::Function
    } else if text == "new" {
        Terminal::New
    } else if text == "null" {
        Terminal::Null
    } else if text == "true" {
        Terminal::True
    } else if text == "var" {
        Terminal::Var
    } else {
        other
    }
}

/// The terminal of the keywords that are operators, else the one that is given.
fn operator_words(text: &str, other: Terminal) -> Terminal
    ensures { result ≡ table.listed table.operator_words other text.now }
{
    if text == "delete" {
        Terminal::Unary(UnaryOperator::Delete)
    } else if text == "in" {
        Terminal::Binary(BinaryOperator::In)
    } else if text == "instanceof" {
        Terminal::Binary(BinaryOperator::InstanceOf)
    } else if text == "typeof" {
        Terminal::Unary(UnaryOperator::TypeOf)
    } else if text == "void" {
        Terminal::Unary(UnaryOperator::Void)
    } else {
        other
    }
}
