//! Expressions with commas between them, and the arguments of a call.

ghost use Rattle.std.specs.Prelude.{false, max, ◌+◌, ◌<◌, ◌≤◌, length};
ghost use Rattle.mdg_read.specs.Parser.{Gives, IsLow, Ready};
ghost use Rattle.mdg_read.specs.AtDepth as at_depth;

use crate::parsed::Parsed;
use crate::parser::Parser;
use crate::production::Production;
use crate::refusal::ReadError;
use crate::terminal::Terminal;
use crate::token_class::same;
use mdg_text::Token;
use mdg_tree::{Expr, Stmt};
use sqlite_items::Items;
use std::alloc::Global;

impl<
    'a,
    F: Fn(Global, &[Token], &[Terminal], u32, Production, usize) -> Result<Parsed<Expr>, ReadError>,
    S: Fn(Global, &[Token], &[Terminal], u32, bool, usize) -> Result<Parsed<Stmt>, ReadError>,
> Parser<'a, F, S> {
    /// Expressions with commas between, after those before (11.14, 11.2). Where the flag is set,
    /// `in` is no operator.
    pub fn sequence_from(
        &self,
        no_in: bool,
        mut before: Items<Expr>,
        mut height: u32,
        mut at: usize,
    ) -> Result<Parsed<Items<Expr>>, ReadError>
        requires ready { Ready self.now.tokens.now self.now.terminals.now self.now.depth (F.pre self.now.expr) (F.post self.now.expr) (S.pre self.now.stmt) (S.post self.now.stmt) }
        requires low { height ≤ self.now.depth + 1 }
        ensures reads { Gives (at_depth.sequence_from self.now.tokens.now self.now.depth no_in (length self.now.tokens.now) before height at) result }
        ensures low { IsLow (max height self.now.depth) result }
    {
        for _iteration in 0..self.tokens.len() {
            let one = self.expr(Production::Assignment(no_in), at)?;
            before.push(one.tree)?;
            height = height.max(one.height);
            let terminal = self.terminal(one.next);
            if !same(terminal, Terminal::Comma) {
                return Ok(Parsed {
                    tree: before,
                    height,
                    next: one.next,
                });
            }
            at = self.after(one.next);
        }
        Err(ReadError::NoTree)
    }

    /// Arguments from the first one on, with the closing parenthesis (11.2).
    #[tactic(auto, unfolding(crate::specs::ReferenceOperands::some_arguments))]
    fn some_arguments(&self, at: usize) -> Result<Parsed<Items<Expr>>, ReadError>
        requires ready { Ready self.now.tokens.now self.now.terminals.now self.now.depth (F.pre self.now.expr) (F.post self.now.expr) (S.pre self.now.stmt) (S.post self.now.stmt) }
        ensures reads { Gives (at_depth.some_arguments self.now.tokens.now self.now.depth at) result }
        ensures low { IsLow self.now.depth result }
    {
        let several = self.sequence_from(false, Items::new(self.alloc), 0, at)?;
        let next = self.expect(Terminal::CloseParen, several.next)?;
        Ok(Parsed {
            tree: several.tree,
            height: several.height,
            next,
        })
    }

    /// Arguments in their parentheses (11.2).
    #[tactic(auto, unfolding(crate::specs::ReferenceOperands::arguments))]
    pub fn arguments(&self, at: usize) -> Result<Parsed<Items<Expr>>, ReadError>
        requires ready { Ready self.now.tokens.now self.now.terminals.now self.now.depth (F.pre self.now.expr) (F.post self.now.expr) (S.pre self.now.stmt) (S.post self.now.stmt) }
        ensures reads { Gives (at_depth.arguments self.now.tokens.now self.now.depth at) result }
        ensures low { IsLow self.now.depth result }
    {
        let next = self.expect(Terminal::OpenParen, at)?;
        let terminal = self.terminal(next);
        if !same(terminal, Terminal::CloseParen) {
            return self.some_arguments(next);
        }
        Ok(Parsed {
            tree: Items::new(self.alloc),
            height: 0,
            next: self.after(next),
        })
    }
}
