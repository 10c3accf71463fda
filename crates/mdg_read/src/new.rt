//! `new` in both forms, and what calls and members begin with (11.2).

ghost use Rattle.std.specs.Prelude.{◌≢◌, ◌+◌, ◌<◌, ◌≤◌, length};
ghost use Rattle.mdg_read.specs.Parser.{Gives, IsLow, Ready};
ghost use Rattle.mdg_read.specs.AtDepth as at_depth;

use crate::parsed::Parsed;
use crate::parser::Parser;
use crate::production::Production;
use crate::refusal::ReadError;
use crate::terminal::Terminal;
use crate::token_class::same;
use mdg_text::Token;
use mdg_tree::{Expr, Stmt};
use sqlite_items::Boxed;
use std::alloc::Global;

impl<
    'a,
    F: Fn(Global, &[Token], &[Terminal], u32, Production, usize) -> Result<Parsed<Expr>, ReadError>,
    S: Fn(Global, &[Token], &[Terminal], u32, bool, usize) -> Result<Parsed<Stmt>, ReadError>,
> Parser<'a, F, S> {
    /// `new` with arguments, whose callee was read (11.2.2).
    #[tactic(auto, unfolding(crate::specs::ReferenceOperands::built_with))]
    fn built_with(
        &self,
        start: usize,
        callee: Parsed<Boxed<Expr>>,
    ) -> Result<Parsed<Expr>, ReadError>
        requires ready { Ready self.now.tokens.now self.now.terminals.now self.now.depth (F.pre self.now.expr) (F.post self.now.expr) (S.pre self.now.stmt) (S.post self.now.stmt) }
        requires low { callee.height ≤ self.now.depth }
        ensures reads { Gives (at_depth.built_with self.now.tokens.now self.now.depth start callee) result }
        ensures low { IsLow (self.now.depth + 1) result }
    {
        let found = self.arguments(callee.next)?;
        Ok(Parsed {
            tree: Expr::NewWithArguments(self.position(start), callee.tree, found.tree),
            height: callee.height.max(found.height) + 1,
            next: found.next,
        })
    }

    /// `new`, with the arguments that belong to it or without any (11.2.2).
    #[tactic(auto, unfolding(crate::specs::ReferenceOperands::built))]
    fn built(&self, at: usize) -> Result<Parsed<Expr>, ReadError>
        requires ready { Ready self.now.tokens.now self.now.terminals.now self.now.depth (F.pre self.now.expr) (F.post self.now.expr) (S.pre self.now.stmt) (S.post self.now.stmt) }
        requires inside { at < length self.now.tokens.now }
        ensures reads { Gives (at_depth.built self.now.tokens.now self.now.depth at) result }
        ensures low { IsLow (self.now.depth + 1) result }
    {
        let callee = self.part(Production::Member, self.after(at))?;
        let terminal = self.terminal(callee.next);
        if same(terminal, Terminal::OpenParen) {
            return self.built_with(at, callee);
        }
        Ok(Parsed {
            tree: Expr::New(self.position(at), callee.tree),
            height: callee.height + 1,
            next: callee.next,
        })
    }

    /// What members and calls stand after: `new`, a function, or a primary expression.
    fn head(&self, terminal: Terminal, at: usize) -> Result<Parsed<Expr>, ReadError>
        requires ready { Ready self.now.tokens.now self.now.terminals.now self.now.depth (F.pre self.now.expr) (F.post self.now.expr) (S.pre self.now.stmt) (S.post self.now.stmt) }
        requires inside { terminal ≢ Terminal.End → at < length self.now.tokens.now }
        ensures reads { Gives (at_depth.head_by self.now.tokens.now self.now.depth terminal at) result }
        ensures low { IsLow (self.now.depth + 1) result }
    {
        match terminal {
            Terminal::New => self.built(at),
            Terminal::Function => self.function(at),
            _ => self.primary(at),
        }
    }

    /// Members, and `new` in either form (11.2).
    #[tactic(auto, unfolding(crate::specs::ReferenceOperands::operand))]
    pub fn operand(&self, at: usize) -> Result<Parsed<Expr>, ReadError>
        requires ready { Ready self.now.tokens.now self.now.terminals.now self.now.depth (F.pre self.now.expr) (F.post self.now.expr) (S.pre self.now.stmt) (S.post self.now.stmt) }
        ensures reads { Gives (at_depth.operand self.now.tokens.now self.now.depth at) result }
        ensures low { IsLow (self.now.depth + 1) result }
    {
        let head = self.head(self.terminal(at), at)?;
        self.members_from(at, head)
    }

    /// A left-hand-side expression: members and calls (11.2).
    #[tactic(auto, unfolding(crate::specs::ReferenceOperands::left_hand_side))]
    pub fn left_hand_side(&self, at: usize) -> Result<Parsed<Expr>, ReadError>
        requires ready { Ready self.now.tokens.now self.now.terminals.now self.now.depth (F.pre self.now.expr) (F.post self.now.expr) (S.pre self.now.stmt) (S.post self.now.stmt) }
        ensures reads { Gives (at_depth.left_hand_side self.now.tokens.now self.now.depth at) result }
        ensures low { IsLow (self.now.depth + 1) result }
    {
        let operand = self.operand(at)?;
        self.links_from(at, operand)
    }
}
