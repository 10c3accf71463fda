//! Statements (12).

ghost use Rattle.std.specs.Prelude.{[], true, suc, max, Some, ◌≡◌, ◌≢◌, ◌+◌, ◌-◌, ◌<◌, ◌≤◌, length, IfOk, MatchResult};
ghost use Rattle.mdg_read.specs.Parser.{Gives, IsLow, Ready};
ghost use Rattle.mdg_read.specs.AtDepth as at_depth;

use crate::parsed::Parsed;
use crate::parser::Parser;
use crate::production::Production;
use crate::refusal::ReadError;
use crate::semicolon::{Terminator, insert_semicolon};
use crate::terminal::Terminal;
use crate::token_class::{ends_block, same};
use mdg_text::Token;
use mdg_tree::{Expr, Stmt};
use sqlite_items::Boxed;
use std::alloc::Global;

impl<
    'a,
    F: Fn(Global, &[Token], &[Terminal], u32, Production, usize) -> Result<Parsed<Expr>, ReadError>,
    S: Fn(Global, &[Token], &[Terminal], u32, bool, usize) -> Result<Parsed<Stmt>, ReadError>,
> Parser<'a, F, S> {
    #[tactic(auto, unfolding(crate::specs::ReferenceStatements::declared_function))]
    fn declared_function(&self, at: usize) -> Result<Parsed<Stmt>, ReadError>
        requires ready { Ready self.now.tokens.now self.now.terminals.now self.now.depth (F.pre self.now.expr) (F.post self.now.expr) (S.pre self.now.stmt) (S.post self.now.stmt) }
        requires inside { at < length self.now.tokens.now }
        ensures reads { Gives (at_depth.declared_function self.now.tokens.now self.now.depth at) result }
        ensures low { IsLow (self.now.depth + 1) result }
    {
        let name = self.terminal(self.after(at));
        if !same(name, Terminal::Name) {
            return Err(ReadError::NoTree);
        }
        let made = self.named_function(at)?;
        Ok(Parsed {
            tree: Stmt::FunctionDeclaration(made.tree),
            height: made.height,
            next: made.next,
        })
    }

    #[tactic(auto, unfolding(crate::specs::ReferenceStatements::block))]
    fn block(&self, at: usize) -> Result<Parsed<Stmt>, ReadError>
        requires ready { Ready self.now.tokens.now self.now.terminals.now self.now.depth (F.pre self.now.expr) (F.post self.now.expr) (S.pre self.now.stmt) (S.post self.now.stmt) }
        requires inside { at < length self.now.tokens.now }
        ensures reads { Gives (at_depth.block self.now.tokens.now self.now.depth at) result }
        ensures low { IsLow (self.now.depth + 1) result }
    {
        let body = self.items(false, self.after(at))?;
        let next = self.expect(Terminal::CloseBrace, body.next)?;
        Ok(Parsed {
            tree: Stmt::Block(self.position(at), body.tree),
            height: body.height + 1,
            next,
        })
    }

    #[tactic(auto, unfolding(crate::specs::ReferenceStatements::expression))]
    fn expression(&self, at: usize) -> Result<Parsed<Stmt>, ReadError>
        requires ready { Ready self.now.tokens.now self.now.terminals.now self.now.depth (F.pre self.now.expr) (F.post self.now.expr) (S.pre self.now.stmt) (S.post self.now.stmt) }
        ensures reads { Gives (at_depth.expression self.now.tokens.now self.now.depth at) result }
        ensures low { IsLow (self.now.depth + 1) result }
    {
        let inner = self.expr(Production::Expression(false), at)?;
        let next = insert_semicolon(self.tokens, self.terminals, Terminator::Plain, inner.next)?;
        Ok(Parsed {
            tree: Stmt::Expression(self.position(at), inner.tree),
            height: inner.height + 1,
            next,
        })
    }

    /// An expression in parentheses that are no part of its tree.
    #[tactic(auto, unfolding(crate::specs::ReferenceStatements::condition))]
    pub fn test(&self, at: usize) -> Result<Parsed<Expr>, ReadError>
        requires ready { Ready self.now.tokens.now self.now.terminals.now self.now.depth (F.pre self.now.expr) (F.post self.now.expr) (S.pre self.now.stmt) (S.post self.now.stmt) }
        ensures reads { Gives (at_depth.test self.now.tokens.now self.now.depth at) result }
        ensures low { IsLow self.now.depth result }
    {
        let next = self.expect(Terminal::OpenParen, at)?;
        let inner = self.expr(Production::Expression(false), next)?;
        let next = self.expect(Terminal::CloseParen, inner.next)?;
        Ok(Parsed {
            tree: inner.tree,
            height: inner.height,
            next,
        })
    }

    /// The rest of an `if` after its first part; an `else` there belongs to it.
    #[tactic(auto, unfolding(crate::specs::ReferenceStatements::otherwise))]
    fn otherwise(
        &self,
        start: usize,
        test: Parsed<Expr>,
        first: Parsed<Stmt>,
    ) -> Result<Parsed<Stmt>, ReadError>
        requires ready { Ready self.now.tokens.now self.now.terminals.now self.now.depth (F.pre self.now.expr) (F.post self.now.expr) (S.pre self.now.stmt) (S.post self.now.stmt) }
        requires low { test.height ≤ self.now.depth }
        requires first_low { first.height ≤ self.now.depth }
        ensures reads { Gives (at_depth.otherwise self.now.tokens.now self.now.depth start test first) result }
        ensures low { IsLow (self.now.depth + 1) result }
    {
        let terminal = self.terminal(first.next);
        if !same(terminal, Terminal::Else) {
            return Ok(Parsed {
                tree: Stmt::If(
                    self.position(start),
                    test.tree,
                    Boxed::new(self.alloc, first.tree)?,
                ),
                height: test.height.max(first.height) + 1,
                next: first.next,
            });
        }
        let second = self.stmt(false, self.after(first.next))?;
        Ok(Parsed {
            tree: Stmt::IfElse(
                self.position(start),
                test.tree,
                Boxed::new(self.alloc, first.tree)?,
                Boxed::new(self.alloc, second.tree)?,
            ),
            height: test.height.max(first.height.max(second.height)) + 1,
            next: second.next,
        })
    }

    #[tactic(auto, unfolding(crate::specs::ReferenceStatements::if_statement))]
    fn if_statement(&self, at: usize) -> Result<Parsed<Stmt>, ReadError>
        requires ready { Ready self.now.tokens.now self.now.terminals.now self.now.depth (F.pre self.now.expr) (F.post self.now.expr) (S.pre self.now.stmt) (S.post self.now.stmt) }
        requires inside { at < length self.now.tokens.now }
        ensures reads { Gives (at_depth.if_statement self.now.tokens.now self.now.depth at) result }
        ensures low { IsLow (self.now.depth + 1) result }
    {
        let test = self.test(self.after(at))?;
        let first = self.stmt(false, test.next)?;
        self.otherwise(at, test, first)
    }

    #[tactic(auto, unfolding(crate::specs::ReferenceStatements::continue_statement))]
    fn continue_statement(&self, at: usize) -> Result<Parsed<Stmt>, ReadError>
        requires ready { Ready self.now.tokens.now self.now.terminals.now self.now.depth (F.pre self.now.expr) (F.post self.now.expr) (S.pre self.now.stmt) (S.post self.now.stmt) }
        requires inside { at < length self.now.tokens.now }
        ensures reads { Gives (at_depth.continue_statement self.now.tokens.now self.now.depth at) result }
        ensures low { IsLow (self.now.depth + 1) result }
    {
        let next = insert_semicolon(
            self.tokens,
            self.terminals,
            Terminator::Jump,
            self.after(at),
        )?;
        Ok(Parsed {
            tree: Stmt::Continue(self.position(at)),
            height: 1,
            next,
        })
    }

    #[tactic(auto, unfolding(crate::specs::ReferenceStatements::break_statement))]
    fn break_statement(&self, at: usize) -> Result<Parsed<Stmt>, ReadError>
        requires ready { Ready self.now.tokens.now self.now.terminals.now self.now.depth (F.pre self.now.expr) (F.post self.now.expr) (S.pre self.now.stmt) (S.post self.now.stmt) }
        requires inside { at < length self.now.tokens.now }
        ensures reads { Gives (at_depth.break_statement self.now.tokens.now self.now.depth at) result }
        ensures low { IsLow (self.now.depth + 1) result }
    {
        let next = insert_semicolon(
            self.tokens,
            self.terminals,
            Terminator::Jump,
            self.after(at),
        )?;
        Ok(Parsed {
            tree: Stmt::Break(self.position(at)),
            height: 1,
            next,
        })
    }

    #[tactic(auto, unfolding(crate::specs::ReferenceStatements::return_alone))]
    fn return_alone(&self, at: usize) -> Result<Parsed<Stmt>, ReadError>
        requires ready { Ready self.now.tokens.now self.now.terminals.now self.now.depth (F.pre self.now.expr) (F.post self.now.expr) (S.pre self.now.stmt) (S.post self.now.stmt) }
        requires inside { at < length self.now.tokens.now }
        ensures reads { Gives (at_depth.return_alone self.now.tokens.now self.now.depth at) result }
        ensures low { IsLow (self.now.depth + 1) result }
    {
        let next = insert_semicolon(
            self.tokens,
            self.terminals,
            Terminator::Jump,
            self.after(at),
        )?;
        Ok(Parsed {
            tree: Stmt::Return(self.position(at)),
            height: 1,
            next,
        })
    }

    #[tactic(auto, unfolding(crate::specs::ReferenceStatements::return_value))]
    fn return_value(&self, at: usize) -> Result<Parsed<Stmt>, ReadError>
        requires ready { Ready self.now.tokens.now self.now.terminals.now self.now.depth (F.pre self.now.expr) (F.post self.now.expr) (S.pre self.now.stmt) (S.post self.now.stmt) }
        requires inside { at < length self.now.tokens.now }
        ensures reads { Gives (at_depth.return_value self.now.tokens.now self.now.depth at) result }
        ensures low { IsLow (self.now.depth + 1) result }
    {
        let value = self.expr(Production::Expression(false), self.after(at))?;
        let next = insert_semicolon(self.tokens, self.terminals, Terminator::Plain, value.next)?;
        Ok(Parsed {
            tree: Stmt::ReturnValue(self.position(at), value.tree),
            height: value.height + 1,
            next,
        })
    }

    #[tactic(auto, unfolding(crate::specs::ReferenceStatements::throw_value))]
    fn throw_value(&self, at: usize) -> Result<Parsed<Stmt>, ReadError>
        requires ready { Ready self.now.tokens.now self.now.terminals.now self.now.depth (F.pre self.now.expr) (F.post self.now.expr) (S.pre self.now.stmt) (S.post self.now.stmt) }
        requires inside { at < length self.now.tokens.now }
        ensures reads { Gives (at_depth.throw_value self.now.tokens.now self.now.depth at) result }
        ensures low { IsLow (self.now.depth + 1) result }
    {
        let value = self.expr(Production::Expression(false), self.after(at))?;
        let next = insert_semicolon(self.tokens, self.terminals, Terminator::Plain, value.next)?;
        Ok(Parsed {
            tree: Stmt::Throw(self.position(at), value.tree),
            height: value.height + 1,
            next,
        })
    }

    #[tactic(auto, unfolding(crate::specs::ReferenceStatements::return_statement))]
    fn return_statement(&self, at: usize) -> Result<Parsed<Stmt>, ReadError>
        requires ready { Ready self.now.tokens.now self.now.terminals.now self.now.depth (F.pre self.now.expr) (F.post self.now.expr) (S.pre self.now.stmt) (S.post self.now.stmt) }
        requires inside { at < length self.now.tokens.now }
        ensures reads { Gives (at_depth.return_statement self.now.tokens.now self.now.depth at) result }
        ensures low { IsLow (self.now.depth + 1) result }
    {
        let next = self.after(at);
        let terminal = self.terminal(next);
        if self.line_before(next) || same(terminal, Terminal::Semicolon) || ends_block(terminal) {
            self.return_alone(at)
        } else {
            self.return_value(at)
        }
    }

    #[tactic(auto, unfolding(crate::specs::ReferenceStatements::throw_statement))]
    fn throw_statement(&self, at: usize) -> Result<Parsed<Stmt>, ReadError>
        requires ready { Ready self.now.tokens.now self.now.terminals.now self.now.depth (F.pre self.now.expr) (F.post self.now.expr) (S.pre self.now.stmt) (S.post self.now.stmt) }
        requires inside { at < length self.now.tokens.now }
        ensures reads { Gives (at_depth.throw_statement self.now.tokens.now self.now.depth at) result }
        ensures low { IsLow (self.now.depth + 1) result }
    {
        if self.line_before(self.after(at)) {
            Err(ReadError::NoTree)
        } else {
            self.throw_value(at)
        }
    }

    #[tactic(auto, unfolding(crate::specs::ReferenceStatements::empty))]
    fn empty(&self, at: usize) -> Result<Parsed<Stmt>, ReadError>
        requires ready { Ready self.now.tokens.now self.now.terminals.now self.now.depth (F.pre self.now.expr) (F.post self.now.expr) (S.pre self.now.stmt) (S.post self.now.stmt) }
        requires inside { at < length self.now.tokens.now }
        ensures reads { Gives (at_depth.empty self.now.tokens.now self.now.depth at) result }
        ensures low { IsLow (self.now.depth + 1) result }
    {
        Ok(Parsed {
            tree: Stmt::Empty(self.position(at)),
            height: 1,
            next: self.after(at),
        })
    }

    fn function_by(&self, top: bool, at: usize) -> Result<Parsed<Stmt>, ReadError>
        requires ready { Ready self.now.tokens.now self.now.terminals.now self.now.depth (F.pre self.now.expr) (F.post self.now.expr) (S.pre self.now.stmt) (S.post self.now.stmt) }
        requires inside { at < length self.now.tokens.now }
        ensures reads { Gives (at_depth.function_by self.now.tokens.now self.now.depth top at) result }
        ensures low { IsLow (self.now.depth + 1) result }
    {
        if top {
            self.declared_function(at)
        } else {
            Err(ReadError::NoTree)
        }
    }

    /// A statement; where the flag is set, a declared function too.
    #[tactic(auto, unfolding(crate::specs::ReferenceStatements::statement))]
    pub fn statement(&self, top: bool, at: usize) -> Result<Parsed<Stmt>, ReadError>
        requires ready { Ready self.now.tokens.now self.now.terminals.now self.now.depth (F.pre self.now.expr) (F.post self.now.expr) (S.pre self.now.stmt) (S.post self.now.stmt) }
        ensures reads { Gives (at_depth.statement self.now.tokens.now self.now.depth top at) result }
        ensures low { IsLow (self.now.depth + 1) result }
    {
        match self.terminal(at) {
            Terminal::Function => self.function_by(top, at),
            Terminal::OpenBrace => self.block(at),
            Terminal::Var => self.var_statement(at),
            Terminal::Semicolon => self.empty(at),
            Terminal::If => self.if_statement(at),
            Terminal::Do => self.do_while(at),
            Terminal::While => self.while_statement(at),
            Terminal::For => self.for_statement(at),
            Terminal::Continue => self.continue_statement(at),
            Terminal::Break => self.break_statement(at),
            Terminal::Return => self.return_statement(at),
            Terminal::Throw => self.throw_statement(at),
            _ => self.expression(at),
        }
    }
}
