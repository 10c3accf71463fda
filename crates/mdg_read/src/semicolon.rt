//! The semicolon that ends a statement, and where it may be inserted (7.9).

ghost use Rattle.std.specs.Prelude.{◌≡◌, ◌≢◌, ◌<◌, ◌+◌, ◌-◌, true, length, map, IfOk, IfSome};
ghost use Rattle.mdg_read.specs.Parser.{Gives};
ghost use Rattle.mdg_read.specs.Combinators as combinators;
ghost use Rattle.mdg_read.specs.Semicolon as semicolons;
ghost use Rattle.mdg_read.specs.Terminal as table;
ghost use Rattle.mdg_read.specs.Tokens as seen;

use crate::lookahead::terminal_at;
use crate::refusal::ReadError;
use crate::terminal::Terminal;
use crate::token_class::{ends_block, is_step, same};
use mdg_text::Token;
use mdg_tree::{BinaryOperator, Declaration};

/// What a statement ends in, which decides where its semicolon may be inserted (7.9).
#[derive(Clone, Copy, Debug, PartialEq, Eq)]
pub enum Terminator {
    Plain,

    /// A `var` whose last declaration is a name alone.
    Name,

    /// `break`, `continue`, or `return` without a value.
    Jump,

    /// The closing parenthesis of `do .. while (..)`.
    Loop,
}

fn continues(terminal: Terminal) -> bool
    ensures { result ≡ semicolons.continues terminal }
{
    match terminal {
        Terminal::OpenParen
        | Terminal::OpenBracket
        | Terminal::Dot
        | Terminal::Comma
        | Terminal::Question
        | Terminal::Colon
        | Terminal::Semicolon
        | Terminal::Binary(_)
        | Terminal::Assign(_) => true,
        _ => false,
    }
}

fn opens(terminal: Terminal) -> bool
    ensures { result ≡ semicolons.opens terminal }
{
    match terminal {
        Terminal::OpenParen | Terminal::OpenBracket => true,
        _ => false,
    }
}

fn restarts(terminal: Terminal) -> bool
    ensures { result ≡ semicolons.restarts terminal }
{
    match terminal {
        Terminal::OpenParen | Terminal::OpenBracket => true,
        Terminal::Binary(BinaryOperator::Add) | Terminal::Binary(BinaryOperator::Subtract) => true,
        _ => false,
    }
}

fn frees(terminator: Terminator, terminal: Terminal) -> bool
    ensures { result ≡ semicolons.frees terminator terminal }
{
    match terminator {
        Terminator::Plain => false,
        Terminator::Name => restarts(terminal),
        Terminator::Jump | Terminator::Loop => true,
    }
}

fn is_loop(terminator: Terminator) -> bool
    ensures { result ≡ semicolons.is_loop terminator }
{
    match terminator {
        Terminator::Loop => true,
        _ => false,
    }
}

/// Whether the closing semicolon may be inserted before a token (7.9): its terminal, whether it stands
/// after a line end, and the terminal before it.
pub fn may_be_inserted(
    terminator: Terminator,
    terminal: Terminal,
    line: bool,
    last: Terminal,
) -> bool
    ensures { result ≡ semicolons.may_be_inserted terminator terminal line last }
{
    let free = !continues(terminal)
        || (opens(terminal) && is_step(last))
        || frees(terminator, terminal);
    ends_block(terminal) || is_loop(terminator) || (line && free)
}

/// The place after the closing semicolon of a statement, or the same place where that semicolon may be inserted (7.9).
#[tactic(auto, unfolding(crate::specs::Combinators::insert_semicolon))]
pub fn insert_semicolon(
    tokens: &[Token],
    terminals: &[Terminal],
    terminator: Terminator,
    at: usize,
) -> Result<usize, ReadError>
    requires { terminals.now ≡ map table.token_terminal tokens.now }
    ensures { Gives (combinators.insert_semicolon tokens.now terminator at) result }
{
    let _count = tokens.len();
    let terminal = terminal_at(tokens, terminals, at);
    if same(terminal, Terminal::Semicolon) {
        return Ok(at + 1);
    }
    let last = terminal_at(tokens, terminals, at.saturating_sub(1));
    if may_be_inserted(terminator, terminal, line_before(tokens, at), last) {
        Ok(at)
    } else {
        Err(ReadError::NoTree)
    }
}

#[tactic(auto, unfolding(crate::specs::Tokens::line_before_at))]
fn line_before(tokens: &[Token], at: usize) -> bool
    ensures { result ≡ seen.line_before_at tokens.now at }
{
    match tokens.get(at) {
        Some(token) => token.line_before,
        None => false,
    }
}

fn terminator_of(one: &Declaration) -> Terminator
    ensures { result ≡ semicolons.var_terminator_of (semicolons.is_bare one.now.value) }
{
    match &one.value {
        None => Terminator::Name,
        Some(_) => Terminator::Plain,
    }
}

/// What ends a `var` with these declarations.
pub fn var_terminator(all: &[Declaration]) -> Terminator
    ensures { result ≡ semicolons.var_terminator all.now }
{
    let mut terminator = Terminator::Plain;
    for one in all {
        terminator = terminator_of(one);
    }
    terminator
}
