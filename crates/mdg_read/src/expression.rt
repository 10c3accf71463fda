//! Choices, assignments and commas, and an expression of any production (11.12 to 11.14).

ghost use Rattle.std.specs.Prelude.{◌+◌, ◌<◌, ◌≤◌, length};
ghost use Rattle.mdg_read.specs.Parser.{Gives, IsLow, Ready};
ghost use Rattle.mdg_read.specs.AtDepth as at_depth;

use crate::parsed::Parsed;
use crate::parser::Parser;
use crate::production::Production;
use crate::refusal::ReadError;
use crate::target::is_assignment_target;
use crate::terminal::Terminal;
use crate::token_class::{assign_of, same};
use mdg_text::Token;
use mdg_tree::{AssignOperator, Expr, Stmt};
use sqlite_items::Items;
use std::alloc::Global;

impl<
    'a,
    F: Fn(Global, &[Token], &[Terminal], u32, Production, usize) -> Result<Parsed<Expr>, ReadError>,
    S: Fn(Global, &[Token], &[Terminal], u32, bool, usize) -> Result<Parsed<Stmt>, ReadError>,
> Parser<'a, F, S> {
    /// What `?` and `:` choose between, whose test was read (11.12). Where the flag is set, `in` is
    /// no operator after the colon.
    #[tactic(auto, unfolding(crate::specs::ReferenceExpressions::choice))]
    fn choice(
        &self,
        no_in: bool,
        start: usize,
        test: Parsed<Expr>,
    ) -> Result<Parsed<Expr>, ReadError>
        requires ready { Ready self.now.tokens.now self.now.terminals.now self.now.depth (F.pre self.now.expr) (F.post self.now.expr) (S.pre self.now.stmt) (S.post self.now.stmt) }
        requires low { test.height ≤ self.now.depth + 1 }
        requires inside { test.next < length self.now.tokens.now }
        ensures reads { Gives (at_depth.choice self.now.tokens.now self.now.depth no_in start test) result }
        ensures low { IsLow (self.now.depth + 1) result }
    {
        let test = self.boxed(test)?;
        let chosen = self.part(Production::Assignment(false), self.after(test.next))?;
        let next = self.expect(Terminal::Colon, chosen.next)?;
        let other = self.part(Production::Assignment(no_in), next)?;
        self.bounded(Parsed {
            tree: Expr::Conditional(self.position(start), test.tree, chosen.tree, other.tree),
            height: test.height.max(chosen.height.max(other.height)) + 1,
            next: other.next,
        })
    }

    /// A choice by `?`, or operators alone (11.12).
    #[tactic(auto, unfolding(crate::specs::ReferenceExpressions::conditional))]
    fn conditional(&self, no_in: bool, at: usize) -> Result<Parsed<Expr>, ReadError>
        requires ready { Ready self.now.tokens.now self.now.terminals.now self.now.depth (F.pre self.now.expr) (F.post self.now.expr) (S.pre self.now.stmt) (S.post self.now.stmt) }
        ensures reads { Gives (at_depth.conditional self.now.tokens.now self.now.depth no_in at) result }
        ensures low { IsLow (self.now.depth + 1) result }
    {
        let first = self.climb(no_in, 0, at)?;
        let terminal = self.terminal(first.next);
        if same(terminal, Terminal::Question) {
            self.choice(no_in, at, first)
        } else {
            Ok(first)
        }
    }

    /// An assignment, whose target was read (11.13).
    #[tactic(auto, unfolding(crate::specs::ReferenceExpressions::assigned))]
    fn assigned(
        &self,
        no_in: bool,
        start: usize,
        op: AssignOperator,
        target: Parsed<Expr>,
    ) -> Result<Parsed<Expr>, ReadError>
        requires ready { Ready self.now.tokens.now self.now.terminals.now self.now.depth (F.pre self.now.expr) (F.post self.now.expr) (S.pre self.now.stmt) (S.post self.now.stmt) }
        requires low { target.height ≤ self.now.depth + 1 }
        requires inside { target.next < length self.now.tokens.now }
        ensures reads { Gives (at_depth.assigned self.now.tokens.now self.now.depth no_in start op target) result }
        ensures low { IsLow (self.now.depth + 1) result }
    {
        if !is_assignment_target(&target.tree) {
            return Err(ReadError::NoTree);
        }
        let target = self.boxed(target)?;
        let value = self.part(Production::Assignment(no_in), self.after(target.next))?;
        self.bounded(Parsed {
            tree: Expr::Assign(self.position(start), op, target.tree, value.tree),
            height: target.height.max(value.height) + 1,
            next: value.next,
        })
    }

    /// An expression without a comma (11.13).
    #[tactic(auto, unfolding(crate::specs::ReferenceExpressions::assignment))]
    fn assignment(&self, no_in: bool, at: usize) -> Result<Parsed<Expr>, ReadError>
        requires ready { Ready self.now.tokens.now self.now.terminals.now self.now.depth (F.pre self.now.expr) (F.post self.now.expr) (S.pre self.now.stmt) (S.post self.now.stmt) }
        ensures reads { Gives (at_depth.assignment self.now.tokens.now self.now.depth no_in at) result }
        ensures low { IsLow (self.now.depth + 1) result }
    {
        let first = self.conditional(no_in, at)?;
        let terminal = self.terminal(first.next);
        match assign_of(terminal) {
            Some(op) => self.assigned(no_in, at, op, first),
            None => Ok(first),
        }
    }

    /// More expressions after commas, the first of which was read (11.14).
    #[tactic(auto, unfolding(crate::specs::ReferenceExpressions::commas))]
    fn commas(
        &self,
        no_in: bool,
        start: usize,
        first: Parsed<Expr>,
    ) -> Result<Parsed<Expr>, ReadError>
        requires ready { Ready self.now.tokens.now self.now.terminals.now self.now.depth (F.pre self.now.expr) (F.post self.now.expr) (S.pre self.now.stmt) (S.post self.now.stmt) }
        requires low { first.height ≤ self.now.depth + 1 }
        requires inside { first.next < length self.now.tokens.now }
        ensures reads { Gives (at_depth.commas self.now.tokens.now self.now.depth no_in start first) result }
        ensures low { IsLow (self.now.depth + 1) result }
    {
        let mut before = Items::new(self.alloc);
        before.push(first.tree)?;
        let all = self.sequence_from(no_in, before, first.height, self.after(first.next))?;
        self.bounded(Parsed {
            tree: Expr::Comma(self.position(start), all.tree),
            height: all.height + 1,
            next: all.next,
        })
    }

    /// An expression, with commas or without (11.14).
    #[tactic(auto, unfolding(crate::specs::ReferenceExpressions::comma_expression))]
    fn comma_expression(&self, no_in: bool, at: usize) -> Result<Parsed<Expr>, ReadError>
        requires ready { Ready self.now.tokens.now self.now.terminals.now self.now.depth (F.pre self.now.expr) (F.post self.now.expr) (S.pre self.now.stmt) (S.post self.now.stmt) }
        ensures reads { Gives (at_depth.comma_expression self.now.tokens.now self.now.depth no_in at) result }
        ensures low { IsLow (self.now.depth + 1) result }
    {
        let first = self.assignment(no_in, at)?;
        let terminal = self.terminal(first.next);
        if same(terminal, Terminal::Comma) {
            self.commas(no_in, at, first)
        } else {
            Ok(first)
        }
    }

    /// An expression of a production (11).
    pub fn any_expression(
        &self,
        production: Production,
        at: usize,
    ) -> Result<Parsed<Expr>, ReadError>
        requires ready { Ready self.now.tokens.now self.now.terminals.now self.now.depth (F.pre self.now.expr) (F.post self.now.expr) (S.pre self.now.stmt) (S.post self.now.stmt) }
        ensures reads { Gives (at_depth.any_expression self.now.tokens.now self.now.depth production at) result }
        ensures low { IsLow (self.now.depth + 1) result }
    {
        match production {
            Production::Expression(no_in) => self.comma_expression(no_in, at),
            Production::Assignment(no_in) => self.assignment(no_in, at),
            Production::Conditional(no_in) => self.conditional(no_in, at),
            Production::Binary(no_in, least) => self.climb(no_in, least, at),
            Production::Unary => self.unary(at),
            Production::Postfix => self.postfix(at),
            Production::LeftHandSide | Production::Call => self.left_hand_side(at),
            Production::New | Production::Member => self.operand(at),
            Production::Primary => self.primary(at),
        }
    }
}
