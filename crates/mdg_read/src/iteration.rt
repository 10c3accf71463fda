//! Loops (12.6).

ghost use Rattle.std.specs.Prelude.{[], true, false, ◌&&◌, suc, max, Some, ◌≡◌, ◌≢◌, ◌+◌, ◌-◌, ◌<◌, ◌≤◌, length, IfOk, MatchResult};
ghost use Rattle.mdg_read.specs.Parser.{Gives, IsLow, Ready};
ghost use Rattle.mdg_tree.specs.declared.tree.Stmt.TheVariants as statement;
ghost use Rattle.mdg_tree.specs.declared.tree.Init.TheVariants as begins;
ghost use Rattle.mdg_tree.specs.declared.tree.Goal.TheVariants as aims;
ghost use Rattle.mdg_read.specs.AtDepth as at_depth;
ghost use Rattle.mdg_read.specs.TokenClass as class;
ghost use Rattle.mdg_read.specs.Tokens as seen;

use crate::parsed::Parsed;
use crate::parser::Parser;
use crate::production::Production;
use crate::refusal::ReadError;
use crate::semicolon::{Terminator, insert_semicolon};
use crate::target::is_assignment_target;
use crate::terminal::Terminal;
use crate::token_class::{is_in, same};
use mdg_text::Token;
use mdg_tree::{Expr, Goal, Init, Stmt};
use sqlite_items::Boxed;
use std::alloc::Global;

impl<
    'a,
    F: Fn(Global, &[Token], &[Terminal], u32, Production, usize) -> Result<Parsed<Expr>, ReadError>,
    S: Fn(Global, &[Token], &[Terminal], u32, bool, usize) -> Result<Parsed<Stmt>, ReadError>,
> Parser<'a, F, S> {
    #[tactic(auto, unfolding(crate::specs::ReferenceStatements::do_while))]
    pub fn do_while(&self, at: usize) -> Result<Parsed<Stmt>, ReadError>
        requires ready { Ready self.now.tokens.now self.now.terminals.now self.now.depth (F.pre self.now.expr) (F.post self.now.expr) (S.pre self.now.stmt) (S.post self.now.stmt) }
        requires inside { at < length self.now.tokens.now }
        ensures reads { Gives (at_depth.do_while self.now.tokens.now self.now.depth at) result }
        ensures low { IsLow (self.now.depth + 1) result }
    {
        let body = self.stmt(false, self.after(at))?;
        let next = self.expect(Terminal::While, body.next)?;
        let test = self.test(next)?;
        let next = insert_semicolon(self.tokens, self.terminals, Terminator::Loop, test.next)?;
        Ok(Parsed {
            tree: Stmt::DoWhile(
                self.position(at),
                Boxed::new(self.alloc, body.tree)?,
                test.tree,
            ),
            height: body.height.max(test.height) + 1,
            next,
        })
    }

    #[tactic(auto, unfolding(crate::specs::ReferenceStatements::while_statement))]
    pub fn while_statement(&self, at: usize) -> Result<Parsed<Stmt>, ReadError>
        requires ready { Ready self.now.tokens.now self.now.terminals.now self.now.depth (F.pre self.now.expr) (F.post self.now.expr) (S.pre self.now.stmt) (S.post self.now.stmt) }
        requires inside { at < length self.now.tokens.now }
        ensures reads { Gives (at_depth.while_statement self.now.tokens.now self.now.depth at) result }
        ensures low { IsLow (self.now.depth + 1) result }
    {
        let test = self.test(self.after(at))?;
        let body = self.stmt(false, test.next)?;
        Ok(Parsed {
            tree: Stmt::While(
                self.position(at),
                test.tree,
                Boxed::new(self.alloc, body.tree)?,
            ),
            height: test.height.max(body.height) + 1,
            next: body.next,
        })
    }

    /// An expression, or none before this terminal.
    #[tactic(auto, unfolding(crate::specs::ReferenceStatements::optional_expression))]
    fn optional_expression(
        &self,
        end: Terminal,
        at: usize,
    ) -> Result<Parsed<Option<Expr>>, ReadError>
        requires ready { Ready self.now.tokens.now self.now.terminals.now self.now.depth (F.pre self.now.expr) (F.post self.now.expr) (S.pre self.now.stmt) (S.post self.now.stmt) }
        requires plain { class.is_operator end ≡ false }
        ensures reads { Gives (at_depth.optional_expression self.now.tokens.now self.now.depth end at) result }
        ensures low { IsLow self.now.depth result }
    {
        let terminal = self.terminal(at);
        if same(terminal, end) {
            return Ok(Parsed {
                tree: None,
                height: 0,
                next: at,
            });
        }
        let inner = self.expr(Production::Expression(false), at)?;
        Ok(Parsed {
            tree: Some(inner.tree),
            height: inner.height,
            next: inner.next,
        })
    }

    fn for_of(
        &self,
        start: usize,
        init: Parsed<Init>,
        test: Parsed<Option<Expr>>,
        update: Parsed<Option<Expr>>,
        body: Parsed<Stmt>,
    ) -> Result<Parsed<Stmt>, ReadError>
        requires init_low { init.height ≤ self.now.depth + 1 }
        requires test_low { test.height ≤ self.now.depth }
        requires update_low { update.height ≤ self.now.depth }
        requires body_low { body.height ≤ self.now.depth }
        requires shallow { self.now.depth < 1000 }
        ensures reads { Gives (Some (record { tree = statement.For (seen.position_at self.now.tokens.now start) init.tree test.tree update.tree body.tree; height = max (max init.height (max test.height update.height)) body.height + 1; next = body.next })) result }
    {
        Ok(Parsed {
            tree: Stmt::For(
                self.position(start),
                init.tree,
                test.tree,
                update.tree,
                Boxed::new(self.alloc, body.tree)?,
            ),
            height: init
                .height
                .max(test.height.max(update.height))
                .max(body.height)
                + 1,
            next: body.next,
        })
    }

    /// The rest of a `for` after what it begins with.
    #[tactic(auto, unfolding(crate::specs::ReferenceStatements::for_rest))]
    fn for_rest(&self, start: usize, init: Parsed<Init>) -> Result<Parsed<Stmt>, ReadError>
        requires ready { Ready self.now.tokens.now self.now.terminals.now self.now.depth (F.pre self.now.expr) (F.post self.now.expr) (S.pre self.now.stmt) (S.post self.now.stmt) }
        requires low { init.height ≤ self.now.depth + 1 }
        ensures reads { Gives (at_depth.for_rest self.now.tokens.now self.now.depth start init) result }
        ensures low { IsLow (self.now.depth + 1) result }
    {
        let next = self.expect(Terminal::Semicolon, init.next)?;
        let test = self.optional_expression(Terminal::Semicolon, next)?;
        let next = self.expect(Terminal::Semicolon, test.next)?;
        let update = self.optional_expression(Terminal::CloseParen, next)?;
        let next = self.expect(Terminal::CloseParen, update.next)?;
        let body = self.stmt(false, next)?;
        let made = self.for_of(start, init, test, update, body)?;
        self.bounded(made)
    }

    fn for_in_of(
        &self,
        start: usize,
        goal: Parsed<Goal>,
        object: Parsed<Expr>,
        body: Parsed<Stmt>,
    ) -> Result<Parsed<Stmt>, ReadError>
        requires goal_low { goal.height ≤ self.now.depth }
        requires object_low { object.height ≤ self.now.depth }
        requires body_low { body.height ≤ self.now.depth }
        requires shallow { self.now.depth < 1000 }
        ensures reads { Gives (Some (record { tree = statement.ForIn (seen.position_at self.now.tokens.now start) goal.tree object.tree body.tree; height = max goal.height (max object.height body.height) + 1; next = body.next })) result }
        ensures low { IsLow (self.now.depth + 1) result }
    {
        Ok(Parsed {
            tree: Stmt::ForIn(
                self.position(start),
                goal.tree,
                object.tree,
                Boxed::new(self.alloc, body.tree)?,
            ),
            height: goal.height.max(object.height.max(body.height)) + 1,
            next: body.next,
        })
    }

    /// The rest of a `for` from its keyword `in`.
    #[tactic(auto, unfolding(crate::specs::ReferenceStatements::for_in_rest))]
    fn for_in_rest(&self, start: usize, goal: Parsed<Goal>) -> Result<Parsed<Stmt>, ReadError>
        requires ready { Ready self.now.tokens.now self.now.terminals.now self.now.depth (F.pre self.now.expr) (F.post self.now.expr) (S.pre self.now.stmt) (S.post self.now.stmt) }
        requires inside { goal.next < length self.now.tokens.now }
        requires low { goal.height ≤ self.now.depth }
        ensures reads { Gives (at_depth.for_in_rest self.now.tokens.now self.now.depth start goal) result }
        ensures low { IsLow (self.now.depth + 1) result }
    {
        let object = self.expr(Production::Expression(false), self.after(goal.next))?;
        let next = self.expect(Terminal::CloseParen, object.next)?;
        let body = self.stmt(false, next)?;
        self.for_in_of(start, goal, object, body)
    }

    /// The goal `var name`, whose keyword stands at `at`.
    fn variable(&self, at: usize, name: usize) -> Result<Parsed<Goal>, ReadError>
        requires inside { name < length self.now.tokens.now }
        ensures { Gives (Some (record { tree = aims.Variable (seen.position_at self.now.tokens.now at) (seen.position_at self.now.tokens.now name) (seen.text_at self.now.tokens.now name); height = 0; next = name + 1 })) result }
    {
        let text = self.text(name)?;
        Ok(Parsed {
            tree: Goal::Variable(self.position(at), self.position(name), text),
            height: 0,
            next: self.after(name),
        })
    }

    #[tactic(auto, unfolding(crate::specs::ReferenceStatements::for_var))]
    fn for_var(&self, start: usize, at: usize) -> Result<Parsed<Stmt>, ReadError>
        requires ready { Ready self.now.tokens.now self.now.terminals.now self.now.depth (F.pre self.now.expr) (F.post self.now.expr) (S.pre self.now.stmt) (S.post self.now.stmt) }
        requires inside { at < length self.now.tokens.now }
        ensures reads { Gives (at_depth.for_var self.now.tokens.now self.now.depth start at) result }
        ensures low { IsLow (self.now.depth + 1) result }
    {
        let name = self.after(at);
        if self.is_goal(name) {
            let goal = self.variable(at, name)?;
            return self.for_in_rest(start, goal);
        }
        let all = self.declarations(true, name)?;
        self.for_rest(
            start,
            Parsed {
                tree: Init::Declarations(self.position(at), all.tree),
                height: all.height + 1,
                next: all.next,
            },
        )
    }

    /// Whether a name and the keyword `in` stand there.
    fn is_goal(&self, at: usize) -> bool
        requires ready { Ready self.now.tokens.now self.now.terminals.now self.now.depth (F.pre self.now.expr) (F.post self.now.expr) (S.pre self.now.stmt) (S.post self.now.stmt) }
        ensures value { result ≡ (class.same (seen.terminal_at self.now.tokens.now at) Terminal.Name && class.is_in (seen.terminal_at self.now.tokens.now (at + 1))) }
        ensures inside { result ≡ true → at + 1 < length self.now.tokens.now }
    {
        let terminal = self.terminal(at);
        if !same(terminal, Terminal::Name) {
            return false;
        }
        let next = self.terminal(self.after(at));
        is_in(next)
    }

    #[tactic(auto, unfolding(crate::specs::ReferenceStatements::for_left))]
    fn for_left(&self, start: usize, left: Parsed<Expr>) -> Result<Parsed<Stmt>, ReadError>
        requires ready { Ready self.now.tokens.now self.now.terminals.now self.now.depth (F.pre self.now.expr) (F.post self.now.expr) (S.pre self.now.stmt) (S.post self.now.stmt) }
        requires inside { left.next < length self.now.tokens.now }
        requires low { left.height ≤ self.now.depth }
        ensures reads { Gives (at_depth.for_left self.now.tokens.now self.now.depth start left) result }
        ensures low { IsLow (self.now.depth + 1) result }
    {
        if !is_assignment_target(&left.tree) {
            return Err(ReadError::NoTree);
        }
        self.for_in_rest(
            start,
            Parsed {
                tree: Goal::Target(left.tree),
                height: left.height,
                next: left.next,
            },
        )
    }

    #[tactic(auto, unfolding(crate::specs::ReferenceStatements::for_expression))]
    fn for_expression(&self, start: usize, at: usize) -> Result<Parsed<Stmt>, ReadError>
        requires ready { Ready self.now.tokens.now self.now.terminals.now self.now.depth (F.pre self.now.expr) (F.post self.now.expr) (S.pre self.now.stmt) (S.post self.now.stmt) }
        ensures reads { Gives (at_depth.for_expression self.now.tokens.now self.now.depth start at) result }
        ensures low { IsLow (self.now.depth + 1) result }
    {
        let first = self.expr(Production::Expression(true), at)?;
        let terminal = self.terminal(first.next);
        if is_in(terminal) {
            return self.for_left(start, first);
        }
        self.for_rest(
            start,
            Parsed {
                tree: Init::Initial(first.tree),
                height: first.height,
                next: first.next,
            },
        )
    }

    fn for_absent(&self, start: usize, at: usize) -> Result<Parsed<Stmt>, ReadError>
        requires ready { Ready self.now.tokens.now self.now.terminals.now self.now.depth (F.pre self.now.expr) (F.post self.now.expr) (S.pre self.now.stmt) (S.post self.now.stmt) }
        ensures reads { Gives (at_depth.for_rest self.now.tokens.now self.now.depth start (record { tree = begins.Absent; height = 0; next = at })) result }
        ensures low { IsLow (self.now.depth + 1) result }
    {
        self.for_rest(
            start,
            Parsed {
                tree: Init::Absent,
                height: 0,
                next: at,
            },
        )
    }

    #[tactic(auto, unfolding(crate::specs::ReferenceStatements::for_statement))]
    pub fn for_statement(&self, at: usize) -> Result<Parsed<Stmt>, ReadError>
        requires ready { Ready self.now.tokens.now self.now.terminals.now self.now.depth (F.pre self.now.expr) (F.post self.now.expr) (S.pre self.now.stmt) (S.post self.now.stmt) }
        requires inside { at < length self.now.tokens.now }
        ensures reads { Gives (at_depth.for_statement self.now.tokens.now self.now.depth at) result }
        ensures low { IsLow (self.now.depth + 1) result }
    {
        let next = self.expect(Terminal::OpenParen, self.after(at))?;
        match self.terminal(next) {
            Terminal::Semicolon => self.for_absent(at, next),
            Terminal::Var => self.for_var(at, next),
            _ => self.for_expression(at, next),
        }
    }
}
