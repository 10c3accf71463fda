//! Members, calls, and `new` (11.2).

ghost use Rattle.std.specs.Prelude.{◌+◌, ◌<◌, ◌≤◌, length};
ghost use Rattle.mdg_read.specs.Parser.{Gives, IsLow, Ready};
ghost use Rattle.mdg_read.specs.AtDepth as at_depth;

use crate::parsed::Parsed;
use crate::parser::Parser;
use crate::production::Production;
use crate::refusal::ReadError;
use crate::terminal::Terminal;
use crate::token_class::{is_link, is_member_link};
use mdg_text::Token;
use mdg_tree::{Expr, Stmt};
use std::alloc::Global;

impl<
    'a,
    F: Fn(Global, &[Token], &[Terminal], u32, Production, usize) -> Result<Parsed<Expr>, ReadError>,
    S: Fn(Global, &[Token], &[Terminal], u32, bool, usize) -> Result<Parsed<Stmt>, ReadError>,
> Parser<'a, F, S> {
    /// A member by its name, `object.name`, whose object was read (11.2.1).
    #[tactic(auto, unfolding(crate::specs::ReferenceOperands::member))]
    fn member(&self, start: usize, object: Parsed<Expr>) -> Result<Parsed<Expr>, ReadError>
        requires ready { Ready self.now.tokens.now self.now.terminals.now self.now.depth (F.pre self.now.expr) (F.post self.now.expr) (S.pre self.now.stmt) (S.post self.now.stmt) }
        requires low { object.height ≤ self.now.depth + 1 }
        requires inside { object.next < length self.now.tokens.now }
        ensures reads { Gives (at_depth.member self.now.tokens.now self.now.depth start object) result }
        ensures low { IsLow (self.now.depth + 1) result }
    {
        let name = self.after(object.next);
        if !self.is_property_name(name) {
            return Err(ReadError::NoTree);
        }
        let object = self.boxed(object)?;
        let text = self.text(name)?;
        self.bounded(Parsed {
            tree: Expr::Member(self.position(start), object.tree, text),
            height: object.height + 1,
            next: self.after(name),
        })
    }

    /// A member by its key, `object[key]`, whose object was read (11.2.1).
    #[tactic(auto, unfolding(crate::specs::ReferenceOperands::index))]
    fn index(&self, start: usize, object: Parsed<Expr>) -> Result<Parsed<Expr>, ReadError>
        requires ready { Ready self.now.tokens.now self.now.terminals.now self.now.depth (F.pre self.now.expr) (F.post self.now.expr) (S.pre self.now.stmt) (S.post self.now.stmt) }
        requires low { object.height ≤ self.now.depth + 1 }
        requires inside { object.next < length self.now.tokens.now }
        ensures reads { Gives (at_depth.index self.now.tokens.now self.now.depth start object) result }
        ensures low { IsLow (self.now.depth + 1) result }
    {
        let object = self.boxed(object)?;
        let key = self.part(Production::Expression(false), self.after(object.next))?;
        let next = self.expect(Terminal::CloseBracket, key.next)?;
        self.bounded(Parsed {
            tree: Expr::Index(self.position(start), object.tree, key.tree),
            height: object.height.max(key.height) + 1,
            next,
        })
    }

    /// A call, whose callee was read (11.2.3).
    #[tactic(auto, unfolding(crate::specs::ReferenceOperands::call))]
    fn call(&self, start: usize, callee: Parsed<Expr>) -> Result<Parsed<Expr>, ReadError>
        requires ready { Ready self.now.tokens.now self.now.terminals.now self.now.depth (F.pre self.now.expr) (F.post self.now.expr) (S.pre self.now.stmt) (S.post self.now.stmt) }
        requires low { callee.height ≤ self.now.depth + 1 }
        ensures reads { Gives (at_depth.call self.now.tokens.now self.now.depth start callee) result }
        ensures low { IsLow (self.now.depth + 1) result }
    {
        let callee = self.boxed(callee)?;
        let found = self.arguments(callee.next)?;
        self.bounded(Parsed {
            tree: Expr::Call(self.position(start), callee.tree, found.tree),
            height: callee.height.max(found.height) + 1,
            next: found.next,
        })
    }

    /// One more member or call after what was read.
    #[tactic(auto, unfolding(crate::specs::ReferenceOperands::link))]
    fn link(&self, start: usize, left: Parsed<Expr>) -> Result<Parsed<Expr>, ReadError>
        requires ready { Ready self.now.tokens.now self.now.terminals.now self.now.depth (F.pre self.now.expr) (F.post self.now.expr) (S.pre self.now.stmt) (S.post self.now.stmt) }
        requires low { left.height ≤ self.now.depth + 1 }
        ensures reads { Gives (at_depth.link self.now.tokens.now self.now.depth start left) result }
        ensures low { IsLow (self.now.depth + 1) result }
    {
        match self.terminal(left.next) {
            Terminal::Dot => self.member(start, left),
            Terminal::OpenBracket => self.index(start, left),
            Terminal::OpenParen => self.call(start, left),
            _ => Err(ReadError::NoTree),
        }
    }

    /// Members and calls after what was read (11.2).
    pub fn links_from(
        &self,
        start: usize,
        mut left: Parsed<Expr>,
    ) -> Result<Parsed<Expr>, ReadError>
        requires ready { Ready self.now.tokens.now self.now.terminals.now self.now.depth (F.pre self.now.expr) (F.post self.now.expr) (S.pre self.now.stmt) (S.post self.now.stmt) }
        requires low { left.height ≤ self.now.depth + 1 }
        ensures reads { Gives (at_depth.links_from self.now.tokens.now self.now.depth (length self.now.tokens.now) start left) result }
        ensures low { IsLow (self.now.depth + 1) result }
    {
        for _iteration in 0..self.tokens.len() {
            let terminal = self.terminal(left.next);
            if !is_link(terminal) {
                return Ok(left);
            }
            left = self.link(start, left)?;
        }
        Err(ReadError::NoTree)
    }

    /// Members after what was read (11.2.1).
    pub fn members_from(
        &self,
        start: usize,
        mut left: Parsed<Expr>,
    ) -> Result<Parsed<Expr>, ReadError>
        requires ready { Ready self.now.tokens.now self.now.terminals.now self.now.depth (F.pre self.now.expr) (F.post self.now.expr) (S.pre self.now.stmt) (S.post self.now.stmt) }
        requires low { left.height ≤ self.now.depth + 1 }
        ensures reads { Gives (at_depth.members_from self.now.tokens.now self.now.depth (length self.now.tokens.now) start left) result }
        ensures low { IsLow (self.now.depth + 1) result }
    {
        for _iteration in 0..self.tokens.len() {
            let terminal = self.terminal(left.next);
            if !is_member_link(terminal) {
                return Ok(left);
            }
            left = self.link(start, left)?;
        }
        Err(ReadError::NoTree)
    }
}
