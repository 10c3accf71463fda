//! Unary and update operators (11.3, 11.4).

ghost use Rattle.std.specs.Prelude.{◌+◌, ◌<◌, ◌≤◌, length};
ghost use Rattle.mdg_read.specs.Parser.{Gives, IsLow, Ready};
ghost use Rattle.mdg_read.specs.AtDepth as at_depth;

use crate::parsed::Parsed;
use crate::parser::Parser;
use crate::production::Production;
use crate::refusal::ReadError;
use crate::target::is_assignment_target;
use crate::terminal::Terminal;
use crate::token_class::{step_of, unary_of};
use mdg_text::Token;
use mdg_tree::{Expr, Step, Stmt, UnaryOperator};
use std::alloc::Global;

impl<
    'a,
    F: Fn(Global, &[Token], &[Terminal], u32, Production, usize) -> Result<Parsed<Expr>, ReadError>,
    S: Fn(Global, &[Token], &[Terminal], u32, bool, usize) -> Result<Parsed<Stmt>, ReadError>,
> Parser<'a, F, S> {
    /// An update operator after its target, which was read (11.3).
    #[tactic(auto, unfolding(crate::specs::ReferenceExpressions::stepped))]
    fn stepped(
        &self,
        start: usize,
        step: Step,
        target: Parsed<Expr>,
    ) -> Result<Parsed<Expr>, ReadError>
        requires ready { Ready self.now.tokens.now self.now.terminals.now self.now.depth (F.pre self.now.expr) (F.post self.now.expr) (S.pre self.now.stmt) (S.post self.now.stmt) }
        requires low { target.height ≤ self.now.depth + 1 }
        requires inside { target.next < length self.now.tokens.now }
        ensures reads { Gives (at_depth.stepped self.now.tokens.now self.now.depth start step target) result }
        ensures low { IsLow (self.now.depth + 1) result }
    {
        if !is_assignment_target(&target.tree) {
            return Err(ReadError::NoTree);
        }
        let target = self.boxed(target)?;
        self.bounded(Parsed {
            tree: Expr::Postfix(self.position(start), step, target.tree),
            height: target.height + 1,
            next: self.after(target.next),
        })
    }

    /// An update operator after its target, on its line (11.3), or the operand alone.
    #[tactic(auto, unfolding(crate::specs::ReferenceExpressions::postfix))]
    pub fn postfix(&self, at: usize) -> Result<Parsed<Expr>, ReadError>
        requires ready { Ready self.now.tokens.now self.now.terminals.now self.now.depth (F.pre self.now.expr) (F.post self.now.expr) (S.pre self.now.stmt) (S.post self.now.stmt) }
        ensures reads { Gives (at_depth.postfix self.now.tokens.now self.now.depth at) result }
        ensures low { IsLow (self.now.depth + 1) result }
    {
        let side = self.left_hand_side(at)?;
        let terminal = self.terminal(side.next);
        let Some(step) = step_of(terminal) else {
            return Ok(side);
        };
        if self.line_before(side.next) {
            return Ok(side);
        }
        self.stepped(at, step, side)
    }

    /// An operator before a value (11.4).
    #[tactic(auto, unfolding(crate::specs::ReferenceExpressions::unary_value))]
    fn unary_value(&self, op: UnaryOperator, at: usize) -> Result<Parsed<Expr>, ReadError>
        requires ready { Ready self.now.tokens.now self.now.terminals.now self.now.depth (F.pre self.now.expr) (F.post self.now.expr) (S.pre self.now.stmt) (S.post self.now.stmt) }
        requires inside { at < length self.now.tokens.now }
        ensures reads { Gives (at_depth.unary_value self.now.tokens.now self.now.depth op at) result }
        ensures low { IsLow (self.now.depth + 1) result }
    {
        let value = self.part(Production::Unary, self.after(at))?;
        Ok(Parsed {
            tree: Expr::Unary(self.position(at), op, value.tree),
            height: value.height + 1,
            next: value.next,
        })
    }

    /// An update operator before its target (11.4.4, 11.4.5).
    #[tactic(auto, unfolding(crate::specs::ReferenceExpressions::prefix))]
    fn prefix(&self, step: Step, at: usize) -> Result<Parsed<Expr>, ReadError>
        requires ready { Ready self.now.tokens.now self.now.terminals.now self.now.depth (F.pre self.now.expr) (F.post self.now.expr) (S.pre self.now.stmt) (S.post self.now.stmt) }
        requires inside { at < length self.now.tokens.now }
        ensures reads { Gives (at_depth.prefix self.now.tokens.now self.now.depth step at) result }
        ensures low { IsLow (self.now.depth + 1) result }
    {
        let target = self.part(Production::LeftHandSide, self.after(at))?;
        if !is_assignment_target(target.tree.get()) {
            return Err(ReadError::NoTree);
        }
        Ok(Parsed {
            tree: Expr::Prefix(self.position(at), step, target.tree),
            height: target.height + 1,
            next: target.next,
        })
    }

    /// An operand with the unary and update operators around it (11.4).
    #[tactic(auto, unfolding(crate::specs::ReferenceExpressions::unary))]
    pub fn unary(&self, at: usize) -> Result<Parsed<Expr>, ReadError>
        requires ready { Ready self.now.tokens.now self.now.terminals.now self.now.depth (F.pre self.now.expr) (F.post self.now.expr) (S.pre self.now.stmt) (S.post self.now.stmt) }
        ensures reads { Gives (at_depth.unary self.now.tokens.now self.now.depth at) result }
        ensures low { IsLow (self.now.depth + 1) result }
    {
        let terminal = self.terminal(at);
        if let Some(step) = step_of(terminal) {
            return self.prefix(step, at);
        }
        match unary_of(terminal) {
            Some(op) => self.unary_value(op, at),
            None => self.postfix(at),
        }
    }
}
