//! Array initialisers (11.1.4).

ghost use Rattle.std.specs.Prelude.{[], ◌+◌, ◌<◌, ◌≤◌, length};
ghost use Rattle.mdg_read.specs.Parser.{Gives, IsLow, Ready};
ghost use Rattle.mdg_read.specs.AtDepth as at_depth;

use crate::parsed::Parsed;
use crate::parser::Parser;
use crate::production::Production;
use crate::refusal::ReadError;
use crate::terminal::Terminal;
use crate::token_class::same;
use mdg_text::Token;
use mdg_tree::{Expr, Stmt};
use sqlite_items::Items;
use std::alloc::Global;

impl<
    'a,
    F: Fn(Global, &[Token], &[Terminal], u32, Production, usize) -> Result<Parsed<Expr>, ReadError>,
    S: Fn(Global, &[Token], &[Terminal], u32, bool, usize) -> Result<Parsed<Stmt>, ReadError>,
> Parser<'a, F, S> {
    /// Elements up to the bracket; a comma may stand before it.
    fn elements_from(&self, mut at: usize) -> Result<Parsed<Items<Expr>>, ReadError>
        requires ready { Ready self.now.tokens.now self.now.terminals.now self.now.depth (F.pre self.now.expr) (F.post self.now.expr) (S.pre self.now.stmt) (S.post self.now.stmt) }
        ensures reads { Gives (at_depth.elements_from self.now.tokens.now self.now.depth (length self.now.tokens.now) [] 0 at) result }
        ensures low { IsLow self.now.depth result }
    {
        let mut before = Items::new(self.alloc);
        let mut height = 0;
        for _iteration in 0..self.tokens.len() {
            let terminal = self.terminal(at);
            if same(terminal, Terminal::CloseBracket) {
                return Ok(Parsed {
                    tree: before,
                    height,
                    next: self.after(at),
                });
            }
            let one = self.expr(Production::Assignment(false), at)?;
            before.push(one.tree)?;
            height = height.max(one.height);
            let following = self.terminal(one.next);
            if !same(following, Terminal::Comma) {
                let next = self.expect(Terminal::CloseBracket, one.next)?;
                return Ok(Parsed {
                    tree: before,
                    height,
                    next,
                });
            }
            at = self.after(one.next);
        }
        Err(ReadError::NoTree)
    }

    /// An array initialiser.
    #[tactic(auto, unfolding(crate::specs::ReferenceOperands::array))]
    pub fn array(&self, at: usize) -> Result<Parsed<Expr>, ReadError>
        requires ready { Ready self.now.tokens.now self.now.terminals.now self.now.depth (F.pre self.now.expr) (F.post self.now.expr) (S.pre self.now.stmt) (S.post self.now.stmt) }
        requires inside { at < length self.now.tokens.now }
        ensures reads { Gives (at_depth.array self.now.tokens.now self.now.depth at) result }
        ensures low { IsLow (self.now.depth + 1) result }
    {
        let all = self.elements_from(self.after(at))?;
        Ok(Parsed {
            tree: Expr::Array(self.position(at), all.tree),
            height: all.height + 1,
            next: all.next,
        })
    }
}
