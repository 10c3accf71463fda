//! The terminals of a file.

ghost use Rattle.std.specs.Prelude.{◌≡◌, ◌≢◌, ◌<◌, ◌+◌, ◌-◌, true, length, map, IfOk, IfSome};
ghost use Rattle.mdg_read.specs.Terminal as table;

use crate::keyword::keyword_terminal;
use crate::punctuator::punctuator_terminal;
use crate::terminal::Terminal;
use mdg_base::NoMemory;
use mdg_text::{Token, TokenKind};
use std::alloc::Global;

/// The terminal of each token, so that the parser compares no texts.
pub fn terminals_of(alloc: Global, all: &[Token]) -> Result<Vec<Terminal>, NoMemory>
    ensures { IfOk result (λ v. v.items ≡ map table.token_terminal all.now) }
{
    let mut terminals = Vec::new(alloc);
    for token in all {
        terminals.push(token_terminal(token))?;
    }
    Ok(terminals)
}

#[tactic(auto, unfolding(crate::specs::Terminal::token_terminal))]
fn token_terminal(token: &Token) -> Terminal
    ensures { result ≡ table.token_terminal token.now }
{
    match token.kind {
        TokenKind::Name => Terminal::Name,
        TokenKind::Word => keyword_terminal(token.text.as_str()),
        TokenKind::Numeral => Terminal::Numeral,
        TokenKind::Text => Terminal::Text,
        TokenKind::Mark => punctuator_terminal(token.text.as_str()),
    }
}
