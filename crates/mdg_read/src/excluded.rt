//! The words that are excluded from the core of the language.

ghost use Rattle.std.specs.Prelude.{◌≡◌, ◌<◌, length, map, MatchOption};
ghost use Rattle.mdg_read.specs.Excluded.{IsCore, IsFirstExcluded};
ghost use Rattle.mdg_read.specs.Excluded as excluded;
ghost use Rattle.mdg_read.specs.Terminal as table;

use crate::lookahead::terminal_at;
use crate::terminal::Terminal;
use crate::token_class::same;
use mdg_text::{Token, TokenKind};

/// The place of the first excluded word that names no property.
pub fn first_excluded_word(tokens: &[Token], terminals: &[Terminal]) -> Option<usize>
    requires { terminals.now ≡ map table.token_terminal tokens.now }
    ensures { MatchOption result (IsCore tokens.now) (λ i. IsFirstExcluded tokens.now i × (i < length tokens.now)) }
{
    for at in 0..tokens.len() {
        if is_excluded(tokens, terminals, at) {
            return Some(at);
        }
    }
    None
}

#[tactic(auto, unfolding(crate::specs::Excluded::is_excluded))]
fn is_excluded(tokens: &[Token], terminals: &[Terminal], at: usize) -> bool
    requires { terminals.now ≡ map table.token_terminal tokens.now }
    ensures { result ≡ excluded.is_excluded tokens.now at }
{
    match tokens.get(at) {
        Some(token) => is_excluded_token(token) && !names_property(tokens, terminals, at),
        None => false,
    }
}

fn is_excluded_token(token: &Token) -> bool
    ensures { result ≡ excluded.is_excluded_text token.now.kind token.now.text }
{
    let text = token.text.as_str();
    match token.kind {
        TokenKind::Name => text == "arguments",
        TokenKind::Word => is_early(text) || is_middle(text) || is_late(text),
        _ => false,
    }
}

fn is_early(text: &str) -> bool
    ensures { result ≡ excluded.is_one_of excluded.early_words text.now }
{
    text == "case"
        || text == "catch"
        || text == "class"
        || text == "const"
        || text == "debugger"
        || text == "default"
        || text == "enum"
        || text == "export"
        || text == "extends"
}

fn is_middle(text: &str) -> bool
    ensures { result ≡ excluded.is_one_of excluded.middle_words text.now }
{
    text == "finally"
        || text == "implements"
        || text == "import"
        || text == "interface"
        || text == "let"
        || text == "package"
        || text == "private"
        || text == "protected"
}

fn is_late(text: &str) -> bool
    ensures { result ≡ excluded.is_one_of excluded.late_words text.now }
{
    text == "public"
        || text == "static"
        || text == "super"
        || text == "switch"
        || text == "this"
        || text == "try"
        || text == "with"
        || text == "yield"
}

fn begins_key(terminal: Terminal) -> bool
    ensures { result ≡ excluded.begins_key terminal }
{
    match terminal {
        Terminal::OpenBrace | Terminal::Comma => true,
        _ => false,
    }
}

#[tactic(auto, unfolding(crate::specs::Excluded::terminal_before))]
fn terminal_before(tokens: &[Token], terminals: &[Terminal], at: usize) -> Terminal
    requires { terminals.now ≡ map table.token_terminal tokens.now }
    ensures { result ≡ excluded.terminal_before tokens.now at }
{
    if at == 0 {
        Terminal::End
    } else {
        terminal_at(tokens, terminals, at - 1)
    }
}

/// Whether a token is a name of a property: after a dot, or between a brace or a comma and a colon.
#[tactic(auto, unfolding(crate::specs::Excluded::names_property))]
fn names_property(tokens: &[Token], terminals: &[Terminal], at: usize) -> bool
    requires known { terminals.now ≡ map table.token_terminal tokens.now }
    requires inside { at < length tokens.now }
    ensures { result ≡ excluded.names_property tokens.now at }
{
    let _count = tokens.len();
    let before = terminal_before(tokens, terminals, at);
    let following = terminal_at(tokens, terminals, at + 1);
    same(before, Terminal::Dot) || (begins_key(before) && same(following, Terminal::Colon))
}
