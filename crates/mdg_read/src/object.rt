//! Object initialisers (11.1.5).

ghost use Rattle.std.specs.Prelude.{[], ◌+◌, ◌<◌, ◌≤◌, length, IfOk};
ghost use Rattle.mdg_read.specs.Parser.{Gives, IsLow, Ready};
ghost use Rattle.mdg_read.specs.AtDepth as at_depth;
ghost use Rattle.mdg_read.specs.Tokens as seen;

use crate::numeral::is_plain;
use crate::parsed::Parsed;
use crate::parser::Parser;
use crate::production::Production;
use crate::refusal::ReadError;
use crate::terminal::Terminal;
use crate::token_class::same;
use mdg_base::Text;
use mdg_text::{Token, TokenKind};
use mdg_tree::{Expr, Key, Property, Stmt};
use sqlite_items::Items;
use std::alloc::Global;

impl<
    'a,
    F: Fn(Global, &[Token], &[Terminal], u32, Production, usize) -> Result<Parsed<Expr>, ReadError>,
    S: Fn(Global, &[Token], &[Terminal], u32, bool, usize) -> Result<Parsed<Stmt>, ReadError>,
> Parser<'a, F, S> {
    /// The key that a token is: a property name, a string literal, or a plain numeral.
    fn key_of(&self, token: &Token) -> Result<Key, ReadError>
        ensures { Gives (seen.key_by token.now.kind token.now.text) result }
    {
        let text = Text::of(self.alloc, token.text.as_str())?;
        match token.kind {
            TokenKind::Name | TokenKind::Word => Ok(Key::Name(text)),
            TokenKind::Text => Ok(Key::Text(text)),
            TokenKind::Numeral => {
                if is_plain(text.as_str().as_bytes()) {
                    Ok(Key::Numeral(text))
                } else {
                    Err(ReadError::NoTree)
                }
            }
            TokenKind::Mark => Err(ReadError::NoTree),
        }
    }

    /// The key at a place.
    #[tactic(auto, unfolding(crate::specs::Tokens::key_at))]
    fn key_at(&self, at: usize) -> Result<Key, ReadError>
        ensures { Gives (seen.key_at self.now.tokens.now at) result }
    {
        match self.tokens.get(at) {
            Some(token) => self.key_of(token),
            None => Err(ReadError::NoTree),
        }
    }

    /// The key at a place, which then lies within the tokens.
    #[tactic(auto, using(crate::proofs::PropertyNames::key_within))]
    fn key(&self, at: usize) -> Result<Key, ReadError>
        ensures reads { Gives (seen.key_at self.now.tokens.now at) result }
        ensures inside { IfOk result (λ _. at < length self.now.tokens.now) }
    {
        self.key_at(at)
    }

    /// A key, a colon and a value.
    #[tactic(auto, unfolding(crate::specs::ReferenceOperands::property))]
    fn property(&self, at: usize) -> Result<Parsed<Property>, ReadError>
        requires ready { Ready self.now.tokens.now self.now.terminals.now self.now.depth (F.pre self.now.expr) (F.post self.now.expr) (S.pre self.now.stmt) (S.post self.now.stmt) }
        ensures reads { Gives (at_depth.property self.now.tokens.now self.now.depth at) result }
        ensures low { IsLow self.now.depth result }
    {
        let key = self.key(at)?;
        let next = self.expect(Terminal::Colon, self.after(at))?;
        let value = self.expr(Production::Assignment(false), next)?;
        Ok(Parsed {
            tree: Property {
                at: self.position(at),
                key,
                value: value.tree,
            },
            height: value.height,
            next: value.next,
        })
    }

    /// Properties up to the brace; a comma may stand before it.
    fn properties_from(&self, mut at: usize) -> Result<Parsed<Items<Property>>, ReadError>
        requires ready { Ready self.now.tokens.now self.now.terminals.now self.now.depth (F.pre self.now.expr) (F.post self.now.expr) (S.pre self.now.stmt) (S.post self.now.stmt) }
        ensures reads { Gives (at_depth.properties_from self.now.tokens.now self.now.depth (length self.now.tokens.now) [] 0 at) result }
        ensures low { IsLow self.now.depth result }
    {
        let mut before = Items::new(self.alloc);
        let mut height = 0;
        for _iteration in 0..self.tokens.len() {
            let terminal = self.terminal(at);
            if same(terminal, Terminal::CloseBrace) {
                return Ok(Parsed {
                    tree: before,
                    height,
                    next: self.after(at),
                });
            }
            let one = self.property(at)?;
            before.push(one.tree)?;
            height = height.max(one.height);
            let following = self.terminal(one.next);
            if !same(following, Terminal::Comma) {
                let next = self.expect(Terminal::CloseBrace, one.next)?;
                return Ok(Parsed {
                    tree: before,
                    height,
                    next,
                });
            }
            at = self.after(one.next);
        }
        Err(ReadError::NoTree)
    }

    /// An object initialiser.
    #[tactic(auto, unfolding(crate::specs::ReferenceOperands::object))]
    pub fn object(&self, at: usize) -> Result<Parsed<Expr>, ReadError>
        requires ready { Ready self.now.tokens.now self.now.terminals.now self.now.depth (F.pre self.now.expr) (F.post self.now.expr) (S.pre self.now.stmt) (S.post self.now.stmt) }
        requires inside { at < length self.now.tokens.now }
        ensures reads { Gives (at_depth.object self.now.tokens.now self.now.depth at) result }
        ensures low { IsLow (self.now.depth + 1) result }
    {
        let all = self.properties_from(self.after(at))?;
        Ok(Parsed {
            tree: Expr::Object(self.position(at), all.tree),
            height: all.height + 1,
            next: all.next,
        })
    }
}
