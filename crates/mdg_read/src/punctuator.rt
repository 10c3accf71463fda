//! Which terminal a punctuator is (7.7).

ghost use Rattle.std.specs.Prelude.{◌≡◌, ◌≢◌, ◌<◌, ◌+◌, ◌-◌, true, length, map, IfOk, IfSome};
ghost use Rattle.mdg_read.specs.Terminal as table;

use crate::terminal::Terminal;
use mdg_tree::{AssignOperator, BinaryOperator, Step, UnaryOperator};

pub fn punctuator_terminal(text: &str) -> Terminal
    ensures { result ≡ table.punctuator_terminal text.now }
{
    let assignment = assignments(text, bit_assignments(text, Terminal::Other));
    let value = arithmetic(text, bit_marks(text, logic_marks(text, assignment)));
    brackets(text, points(text, comparisons(text, value)))
}

/// The terminal of the brackets, else the one that is given.
fn brackets(text: &str, other: Terminal) -> Terminal
    ensures { result ≡ table.listed table.brackets other text.now }
{
    if text == "{" {
        Terminal::OpenBrace
    } else if text == "}" {
        Terminal::CloseBrace
    } else if text == "(" {
        Terminal::OpenParen
    } else if text == ")" {
        Terminal::CloseParen
    } else if text == "[" {
        Terminal::OpenBracket
    } else if text == "]" {
        Terminal::CloseBracket
    } else {
        other
    }
}

/// The terminal of the separators, else the one that is given.
fn points(text: &str, other: Terminal) -> Terminal
    ensures { result ≡ table.listed table.points other text.now }
{
    if text == "." {
        Terminal::Dot
    } else if text == ";" {
        Terminal::Semicolon
    } else if text == "," {
        Terminal::Comma
    } else if text == "?" {
        Terminal::Question
    } else if text == ":" {
        Terminal::Colon
    } else {
        other
    }
}

/// The terminal of the comparison operators, else the one that is given.
fn comparisons(text: &str, other: Terminal) -> Terminal
    ensures { result ≡ table.listed table.comparisons other text.now }
{
    if text == "<" {
        Terminal::Binary(BinaryOperator::Less)
    } else if text == ">" {
        Terminal::Binary(BinaryOperator::Greater)
    } else if text == "<=" {
        Terminal::Binary(BinaryOperator::LessEqual)
    } else if text == ">=" {
        Terminal::Binary(BinaryOperator::GreaterEqual)
    } else if text == "==" {
        Terminal::Binary(BinaryOperator::Equal)
    } else if text == "!=" {
        Terminal::Binary(BinaryOperator::NotEqual)
    } else if text == "===" {
        Terminal::Binary(BinaryOperator::StrictEqual)
    } else if text == "!==" {
        Terminal::Binary(BinaryOperator::StrictNotEqual)
    } else {
        other
    }
}

/// The terminal of the arithmetic and update operators, else the one that is given.
fn arithmetic(text: &str, other: Terminal) -> Terminal
    ensures { result ≡ table.listed table.arithmetic other text.now }
{
    if text == "+" {
        Terminal::Binary(BinaryOperator::Add)
    } else if text == "-" {
        Terminal::Binary(BinaryOperator::Subtract)
    } else if text == "*" {
        Terminal::Binary(BinaryOperator::Multiply)
    } else if text == "%" {
        Terminal::Binary(BinaryOperator::Remainder)
    } else if text == "/" {
        Terminal::Binary(BinaryOperator::Divide)
    } else if text == "++" {
        Terminal::Update(Step::Increment)
    } else if text == "--" {
        Terminal::Update(Step::Decrement)
    } else {
        other
    }
}

/// The terminal of the bitwise operators, else the one that is given.
fn bit_marks(text: &str, other: Terminal) -> Terminal
    ensures { result ≡ table.listed table.bit_marks other text.now }
{
    if text == "<<" {
        Terminal::Binary(BinaryOperator::ShiftLeft)
    } else if text == ">>" {
        Terminal::Binary(BinaryOperator::ShiftRight)
    } else if text == ">>>" {
        Terminal::Binary(BinaryOperator::ShiftRightUnsigned)
    } else if text == "&" {
        Terminal::Binary(BinaryOperator::BitAnd)
    } else if text == "|" {
        Terminal::Binary(BinaryOperator::BitOr)
    } else if text == "^" {
        Terminal::Binary(BinaryOperator::BitXor)
    } else if text == "~" {
        Terminal::Unary(UnaryOperator::BitNot)
    } else {
        other
    }
}

/// The terminal of the logical operators, else the one that is given.
fn logic_marks(text: &str, other: Terminal) -> Terminal
    ensures { result ≡ table.listed table.logic_marks other text.now }
{
    if text == "!" {
        Terminal::Unary(UnaryOperator::Not)
    } else if text == "&&" {
        Terminal::Binary(BinaryOperator::And)
    } else if text == "||" {
        Terminal::Binary(BinaryOperator::Or)
    } else {
        other
    }
}

/// The terminal of the assignment operators, else the one that is given.
fn assignments(text: &str, other: Terminal) -> Terminal
    ensures { result ≡ table.listed table.assignments other text.now }
{
    if text == "=" {
        Terminal::Assign(AssignOperator::Plain)
    } else if text == "+=" {
        Terminal::Assign(AssignOperator::Add)
    } else if text == "-=" {
        Terminal::Assign(AssignOperator::Subtract)
    } else if text == "*=" {
        Terminal::Assign(AssignOperator::Multiply)
    } else if text == "%=" {
        Terminal::Assign(AssignOperator::Remainder)
    } else if text == "/=" {
        Terminal::Assign(AssignOperator::Divide)
    } else {
        other
    }
}

/// The terminal of the bitwise assignment operators, else the one that is given.
fn bit_assignments(text: &str, other: Terminal) -> Terminal
    ensures { result ≡ table.listed table.bit_assignments other text.now }
{
    if text == "<<=" {
        Terminal::Assign(AssignOperator::ShiftLeft)
    } else if text == ">>=" {
        Terminal::Assign(AssignOperator::ShiftRight)
    } else if text == ">>>=" {
        Terminal::Assign(AssignOperator::ShiftRightUnsigned)
    } else if text == "&=" {
        Terminal::Assign(AssignOperator::BitAnd)
    } else if text == "|=" {
        Terminal::Assign(AssignOperator::BitOr)
    } else if text == "^=" {
        Terminal::Assign(AssignOperator::BitXor)
    } else {
        other
    }
}
