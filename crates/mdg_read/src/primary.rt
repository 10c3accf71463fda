//! Names, literals, initialisers, and expressions in parentheses (11.1).

ghost use Rattle.std.specs.Prelude.{◌≡◌, ◌+◌, ◌<◌, ◌≤◌, length};
ghost use Rattle.mdg_read.specs.Parser.{Gives, IsLow, Ready};
ghost use Rattle.mdg_read.specs.AtDepth as at_depth;

use crate::parsed::Parsed;
use crate::parser::Parser;
use crate::production::Production;
use crate::refusal::ReadError;
use crate::terminal::Terminal;
use mdg_text::Token;
use mdg_tree::{Expr, Stmt};
use std::alloc::Global;

impl<
    'a,
    F: Fn(Global, &[Token], &[Terminal], u32, Production, usize) -> Result<Parsed<Expr>, ReadError>,
    S: Fn(Global, &[Token], &[Terminal], u32, bool, usize) -> Result<Parsed<Stmt>, ReadError>,
> Parser<'a, F, S> {
    /// An expression in parentheses (11.1.6).
    #[tactic(auto, unfolding(crate::specs::ReferenceOperands::paren))]
    fn paren(&self, at: usize) -> Result<Parsed<Expr>, ReadError>
        requires ready { Ready self.now.tokens.now self.now.terminals.now self.now.depth (F.pre self.now.expr) (F.post self.now.expr) (S.pre self.now.stmt) (S.post self.now.stmt) }
        requires inside { at < length self.now.tokens.now }
        ensures reads { Gives (at_depth.paren self.now.tokens.now self.now.depth at) result }
        ensures low { IsLow (self.now.depth + 1) result }
    {
        let inner = self.part(Production::Expression(false), self.after(at))?;
        let next = self.expect(Terminal::CloseParen, inner.next)?;
        Ok(Parsed {
            tree: Expr::Paren(self.position(at), inner.tree),
            height: inner.height + 1,
            next,
        })
    }

    /// A tree of one token.
    fn leaf(&self, tree: Expr, at: usize) -> Parsed<Expr>
        requires inside { at < length self.now.tokens.now }
        ensures { result ≡ record { tree = tree; height = 1; next = at + 1 } }
    {
        Parsed {
            tree,
            height: 1,
            next: self.after(at),
        }
    }

    /// A name, a literal, an initialiser, or an expression in parentheses.
    #[tactic(auto, unfolding(crate::specs::ReferenceOperands::primary))]
    pub fn primary(&self, at: usize) -> Result<Parsed<Expr>, ReadError>
        requires ready { Ready self.now.tokens.now self.now.terminals.now self.now.depth (F.pre self.now.expr) (F.post self.now.expr) (S.pre self.now.stmt) (S.post self.now.stmt) }
        ensures reads { Gives (at_depth.primary self.now.tokens.now self.now.depth at) result }
        ensures low { IsLow (self.now.depth + 1) result }
    {
        match self.terminal(at) {
            Terminal::Name => Ok(self.leaf(Expr::Name(self.position(at), self.text(at)?), at)),
            Terminal::Null => Ok(self.leaf(Expr::Null(self.position(at)), at)),
            Terminal::True => Ok(self.leaf(Expr::True(self.position(at)), at)),
            Terminal::False => Ok(self.leaf(Expr::False(self.position(at)), at)),
            Terminal::Numeral => Ok(self.leaf(
                Expr::Numeral(self.position(at), self.text(at)?),
                at,
            )),
            Terminal::Text => Ok(self.leaf(Expr::Text(self.position(at), self.text(at)?), at)),
            Terminal::OpenParen => self.paren(at),
            Terminal::OpenBracket => self.array(at),
            Terminal::OpenBrace => self.object(at),
            _ => Err(ReadError::NoTree),
        }
    }
}
