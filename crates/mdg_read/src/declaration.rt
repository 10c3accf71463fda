//! Declared variables (12.2).

ghost use Rattle.std.specs.Prelude.{[], true, suc, max, Some, ◌≡◌, ◌≢◌, ◌+◌, ◌-◌, ◌<◌, ◌≤◌, length, IfOk, MatchResult};
ghost use Rattle.mdg_read.specs.Parser.{Gives, IsLow, Ready};
ghost use Rattle.mdg_read.specs.AtDepth as at_depth;

use crate::parsed::Parsed;
use crate::parser::Parser;
use crate::production::Production;
use crate::refusal::ReadError;
use crate::semicolon::{insert_semicolon, var_terminator};
use crate::terminal::Terminal;
use crate::token_class::{is_plain_assign, same};
use mdg_text::Token;
use mdg_tree::{Declaration, Expr, Stmt};
use sqlite_items::Items;
use std::alloc::Global;

impl<
    'a,
    F: Fn(Global, &[Token], &[Terminal], u32, Production, usize) -> Result<Parsed<Expr>, ReadError>,
    S: Fn(Global, &[Token], &[Terminal], u32, bool, usize) -> Result<Parsed<Stmt>, ReadError>,
> Parser<'a, F, S> {
    #[tactic(auto, unfolding(crate::specs::ReferenceStatements::declaration))]
    fn declaration(&self, no_in: bool, at: usize) -> Result<Parsed<Declaration>, ReadError>
        requires ready { Ready self.now.tokens.now self.now.terminals.now self.now.depth (F.pre self.now.expr) (F.post self.now.expr) (S.pre self.now.stmt) (S.post self.now.stmt) }
        ensures reads { Gives (at_depth.declaration self.now.tokens.now self.now.depth no_in at) result }
        ensures low { IsLow self.now.depth result }
    {
        let next = self.expect(Terminal::Name, at)?;
        let name = self.text(at)?;
        let place = self.position(at);
        let terminal = self.terminal(next);
        if !is_plain_assign(terminal) {
            return Ok(Parsed {
                tree: Declaration {
                    at: place,
                    name,
                    value: None,
                },
                height: 0,
                next,
            });
        }
        let value = self.expr(Production::Assignment(no_in), self.after(next))?;
        Ok(Parsed {
            tree: Declaration {
                at: place,
                name,
                value: Some(value.tree),
            },
            height: value.height,
            next: value.next,
        })
    }

    /// One or more declarations with commas between.
    pub fn declarations(
        &self,
        no_in: bool,
        mut at: usize,
    ) -> Result<Parsed<Items<Declaration>>, ReadError>
        requires ready { Ready self.now.tokens.now self.now.terminals.now self.now.depth (F.pre self.now.expr) (F.post self.now.expr) (S.pre self.now.stmt) (S.post self.now.stmt) }
        ensures reads { Gives (at_depth.declarations self.now.tokens.now self.now.depth no_in at) result }
        ensures low { IsLow self.now.depth result }
    {
        let mut all = Items::new(self.alloc);
        let mut height = 0;
        for _iteration in 0..self.tokens.len() {
            let one = self.declaration(no_in, at)?;
            all.push(one.tree)?;
            height = height.max(one.height);
            let terminal = self.terminal(one.next);
            if !same(terminal, Terminal::Comma) {
                return Ok(Parsed {
                    tree: all,
                    height,
                    next: one.next,
                });
            }
            at = self.after(one.next);
        }
        Err(ReadError::NoTree)
    }

    #[tactic(auto, unfolding(crate::specs::ReferenceStatements::var_statement))]
    pub fn var_statement(&self, at: usize) -> Result<Parsed<Stmt>, ReadError>
        requires ready { Ready self.now.tokens.now self.now.terminals.now self.now.depth (F.pre self.now.expr) (F.post self.now.expr) (S.pre self.now.stmt) (S.post self.now.stmt) }
        requires inside { at < length self.now.tokens.now }
        ensures reads { Gives (at_depth.var_statement self.now.tokens.now self.now.depth at) result }
        ensures low { IsLow (self.now.depth + 1) result }
    {
        let all = self.declarations(false, self.after(at))?;
        let terminator = var_terminator(all.tree.as_slice());
        let next = insert_semicolon(self.tokens, self.terminals, terminator, all.next)?;
        Ok(Parsed {
            tree: Stmt::Var(self.position(at), all.tree),
            height: all.height + 1,
            next,
        })
    }
}
