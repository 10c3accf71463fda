//! Classes of terminals, and the precedence of operators.

ghost use Rattle.std.specs.Prelude.{◌≡◌, ◌≢◌, ◌<◌, ◌+◌, ◌-◌, true, false, length, map, IfOk, IfSome};
ghost use Rattle.mdg_read.specs.TokenClass as class;
ghost use Rattle.mdg_read.specs.Tokens as seen;

use crate::terminal::Terminal;
use mdg_text::TokenKind;
use mdg_tree::{AssignOperator, BinaryOperator, Step, UnaryOperator};

/// Whether a terminal is the wanted one, which is no operator.
#[tactic(auto, using(crate::proofs::Combinators::same_means))]
pub fn same(found: Terminal, wanted: Terminal) -> bool
    requires { class.is_operator wanted ≡ false }
    ensures value { result ≡ class.same found wanted }
    ensures same { result ≡ true → found ≡ wanted }
{
    match wanted {
        Terminal::End => found == Terminal::End,
        Terminal::Name => found == Terminal::Name,
        Terminal::Numeral => found == Terminal::Numeral,
        Terminal::Text => found == Terminal::Text,
        Terminal::ReservedWord => found == Terminal::ReservedWord,
        Terminal::OpenParen => found == Terminal::OpenParen,
        Terminal::CloseParen => found == Terminal::CloseParen,
        Terminal::OpenBracket => found == Terminal::OpenBracket,
        Terminal::CloseBracket => found == Terminal::CloseBracket,
        Terminal::OpenBrace => found == Terminal::OpenBrace,
        Terminal::CloseBrace => found == Terminal::CloseBrace,
        Terminal::Dot => found == Terminal::Dot,
        Terminal::Semicolon => found == Terminal::Semicolon,
        Terminal::Comma => found == Terminal::Comma,
        Terminal::Question => found == Terminal::Question,
        Terminal::Colon => found == Terminal::Colon,
        Terminal::Break => found == Terminal::Break,
        Terminal::Continue => found == Terminal::Continue,
        Terminal::Do => found == Terminal::Do,
        Terminal::Else => found == Terminal::Else,
        Terminal::False => found == Terminal::False,
        Terminal::For => found == Terminal::For,
        Terminal::Function => found == Terminal::Function,
        Terminal::If => found == Terminal::If,
        Terminal::New => found == Terminal::New,
        Terminal::Null => found == Terminal::Null,
        Terminal::Return => found == Terminal::Return,
        Terminal::Throw => found == Terminal::Throw,
        Terminal::True => found == Terminal::True,
        Terminal::Var => found == Terminal::Var,
        Terminal::While => found == Terminal::While,
        Terminal::Other => found == Terminal::Other,
        Terminal::Binary(_) | Terminal::Unary(_) | Terminal::Assign(_) | Terminal::Update(_) =>
            false,
    }
}

/// The precedence of an operator, from 0, the loosest.
pub fn precedence(op: BinaryOperator) -> u8
    ensures value { result ≡ class.precedence op }
    ensures small { result < 10 }
{
    match op {
        BinaryOperator::Or => 0,
        BinaryOperator::And => 1,
        BinaryOperator::BitOr => 2,
        BinaryOperator::BitXor => 3,
        BinaryOperator::BitAnd => 4,
        BinaryOperator::Equal
        | BinaryOperator::NotEqual
        | BinaryOperator::StrictEqual
        | BinaryOperator::StrictNotEqual => 5,
        BinaryOperator::Less
        | BinaryOperator::Greater
        | BinaryOperator::LessEqual
        | BinaryOperator::GreaterEqual
        | BinaryOperator::InstanceOf
        | BinaryOperator::In => 6,
        BinaryOperator::ShiftLeft
        | BinaryOperator::ShiftRight
        | BinaryOperator::ShiftRightUnsigned => 7,
        BinaryOperator::Add | BinaryOperator::Subtract => 8,
        BinaryOperator::Multiply | BinaryOperator::Divide | BinaryOperator::Remainder => 9,
    }
}

fn is_in_operator(op: BinaryOperator) -> bool
    ensures { result ≡ class.is_in_operator op }
{
    match op {
        BinaryOperator::In => true,
        _ => false,
    }
}

/// The operator that a terminal is, but for `in` where the flag excludes it.
pub fn op_of(no_in: bool, terminal: Terminal) -> Option<BinaryOperator>
    ensures { result ≡ class.op_of no_in terminal }
{
    match terminal {
        Terminal::Binary(op) => {
            if no_in && is_in_operator(op) {
                None
            } else {
                Some(op)
            }
        }
        _ => None,
    }
}

/// The update operator that a terminal is.
pub fn step_of(terminal: Terminal) -> Option<Step>
    ensures { result ≡ class.step_of terminal }
{
    match terminal {
        Terminal::Update(step) => Some(step),
        _ => None,
    }
}

pub fn is_step(terminal: Terminal) -> bool
    ensures { result ≡ class.is_step terminal }
{
    match terminal {
        Terminal::Update(_) => true,
        _ => false,
    }
}

/// The assignment operator that a terminal is.
pub fn assign_of(terminal: Terminal) -> Option<AssignOperator>
    ensures { result ≡ class.assign_of terminal }
{
    match terminal {
        Terminal::Assign(op) => Some(op),
        _ => None,
    }
}

/// The operator before a value that a terminal is.
pub fn unary_of(terminal: Terminal) -> Option<UnaryOperator>
    ensures { result ≡ class.unary_of terminal }
{
    match terminal {
        Terminal::Unary(op) => Some(op),
        Terminal::Binary(BinaryOperator::Add) => Some(UnaryOperator::Plus),
        Terminal::Binary(BinaryOperator::Subtract) => Some(UnaryOperator::Minus),
        _ => None,
    }
}

/// Whether it is `=`.
pub fn is_plain_assign(terminal: Terminal) -> bool
    ensures { result ≡ class.is_plain_assign terminal }
{
    match terminal {
        Terminal::Assign(AssignOperator::Plain) => true,
        _ => false,
    }
}

/// Whether it is `in`.
pub fn is_in(terminal: Terminal) -> bool
    ensures { result ≡ class.is_in terminal }
{
    match terminal {
        Terminal::Binary(op) => is_in_operator(op),
        _ => false,
    }
}

/// Whether it continues a call or a member expression.
pub fn is_link(terminal: Terminal) -> bool
    ensures { result ≡ class.is_link terminal }
{
    match terminal {
        Terminal::OpenParen | Terminal::Dot | Terminal::OpenBracket => true,
        _ => false,
    }
}

/// Whether it continues a member expression.
pub fn is_member_link(terminal: Terminal) -> bool
    ensures { result ≡ class.is_member_link terminal }
{
    match terminal {
        Terminal::Dot | Terminal::OpenBracket => true,
        _ => false,
    }
}

/// Whether a block, or the file, ends there.
pub fn ends_block(terminal: Terminal) -> bool
    ensures { result ≡ class.ends_block terminal }
{
    match terminal {
        Terminal::CloseBrace | Terminal::End => true,
        _ => false,
    }
}

/// Whether it is a name or a keyword: what may name a property.
pub fn is_name_kind(kind: TokenKind) -> bool
    ensures { result ≡ seen.is_name_kind kind }
{
    match kind {
        TokenKind::Name | TokenKind::Word => true,
        _ => false,
    }
}
