//! Lookahead: the token at a place.

ghost use Rattle.std.specs.Prelude.{◌≡◌, ◌≢◌, ◌<◌, length, map};
ghost use Rattle.mdg_read.specs.Terminal as table;
ghost use Rattle.mdg_read.specs.Tokens as seen;

use crate::terminal::Terminal;
use crate::token_class::is_name_kind;
use mdg_text::Token;
use mdg_tree::At;

/// The terminal of the token at a place, from the list of all terminals.
#[tactic(auto, using(crate::proofs::LookaheadLemmas::lookahead))]
pub fn terminal_at(tokens: &[Token], terminals: &[Terminal], at: usize) -> Terminal
    requires { terminals.now ≡ map table.token_terminal tokens.now }
    ensures terminal { result ≡ seen.terminal_at tokens.now at }
    ensures inside { result ≢ Terminal.End → at < length tokens.now }
{
    let _count = tokens.len();
    if at < terminals.len() {
        terminals[at]
    } else {
        Terminal::End
    }
}

/// Where the token at a place stands.
#[tactic(auto, unfolding(crate::specs::Tokens::position_at))]
pub fn position_at(tokens: &[Token], at: usize) -> At
    ensures { result ≡ seen.position_at tokens.now at }
{
    match tokens.get(at) {
        Some(token) => At {
            line: token.line,
            offset: token.from,
        },
        None => At { line: 0, offset: 0 },
    }
}

/// Whether a property name stands at a place (11.2.1).
#[tactic(auto, unfolding(crate::specs::Tokens::is_property_name))]
pub fn is_property_name(tokens: &[Token], at: usize) -> bool
    ensures { result ≡ seen.is_property_name tokens.now at }
{
    match tokens.get(at) {
        Some(token) => is_name_kind(token.kind),
        None => false,
    }
}
