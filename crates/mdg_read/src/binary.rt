//! Operators between two values (11.5 to 11.11).

ghost use Rattle.std.specs.Prelude.{◌+◌, ◌<◌, ◌≤◌, length};
ghost use Rattle.mdg_read.specs.Parser.{Gives, IsLow, Ready};
ghost use Rattle.mdg_read.specs.AtDepth as at_depth;

use crate::parsed::Parsed;
use crate::parser::Parser;
use crate::production::Production;
use crate::refusal::ReadError;
use crate::terminal::Terminal;
use crate::token_class::{op_of, precedence};
use mdg_text::Token;
use mdg_tree::{BinaryOperator, Expr, Stmt};
use std::alloc::Global;

impl<
    'a,
    F: Fn(Global, &[Token], &[Terminal], u32, Production, usize) -> Result<Parsed<Expr>, ReadError>,
    S: Fn(Global, &[Token], &[Terminal], u32, bool, usize) -> Result<Parsed<Stmt>, ReadError>,
> Parser<'a, F, S> {
    /// An operator and its right operand, whose left operand was read. Where the flag is set, `in` is no
    /// operator.
    #[tactic(auto, unfolding(crate::specs::ReferenceExpressions::operation))]
    fn operation(
        &self,
        no_in: bool,
        start: usize,
        op: BinaryOperator,
        left: Parsed<Expr>,
    ) -> Result<Parsed<Expr>, ReadError>
        requires ready { Ready self.now.tokens.now self.now.terminals.now self.now.depth (F.pre self.now.expr) (F.post self.now.expr) (S.pre self.now.stmt) (S.post self.now.stmt) }
        requires low { left.height ≤ self.now.depth + 1 }
        requires inside { left.next < length self.now.tokens.now }
        ensures reads { Gives (at_depth.operation self.now.tokens.now self.now.depth no_in start op left) result }
        ensures low { IsLow (self.now.depth + 1) result }
    {
        let left = self.boxed(left)?;
        let tighter = Production::Binary(no_in, precedence(op) + 1);
        let right = self.part(tighter, self.after(left.next))?;
        self.bounded(Parsed {
            tree: Expr::Binary(self.position(start), op, left.tree, right.tree),
            height: left.height.max(right.height) + 1,
            next: right.next,
        })
    }

    /// Operators of a precedence and of tighter ones, after what was read; those of one precedence group
    /// from the left.
    fn climb_from(
        &self,
        no_in: bool,
        least: u8,
        start: usize,
        mut left: Parsed<Expr>,
    ) -> Result<Parsed<Expr>, ReadError>
        requires ready { Ready self.now.tokens.now self.now.terminals.now self.now.depth (F.pre self.now.expr) (F.post self.now.expr) (S.pre self.now.stmt) (S.post self.now.stmt) }
        requires low { left.height ≤ self.now.depth + 1 }
        ensures reads { Gives (at_depth.climb_from self.now.tokens.now self.now.depth no_in (length self.now.tokens.now) least start left) result }
        ensures low { IsLow (self.now.depth + 1) result }
    {
        for _iteration in 0..self.tokens.len() {
            let terminal = self.terminal(left.next);
            let Some(op) = op_of(no_in, terminal) else {
                return Ok(left);
            };
            if precedence(op) < least {
                return Ok(left);
            }
            left = self.operation(no_in, start, op, left)?;
        }
        Err(ReadError::NoTree)
    }

    /// Operands with operators of a precedence and of tighter ones between them.
    #[tactic(auto, unfolding(crate::specs::ReferenceExpressions::climb))]
    pub fn climb(&self, no_in: bool, least: u8, at: usize) -> Result<Parsed<Expr>, ReadError>
        requires ready { Ready self.now.tokens.now self.now.terminals.now self.now.depth (F.pre self.now.expr) (F.post self.now.expr) (S.pre self.now.stmt) (S.post self.now.stmt) }
        ensures reads { Gives (at_depth.climb self.now.tokens.now self.now.depth no_in least at) result }
        ensures low { IsLow (self.now.depth + 1) result }
    {
        let first = self.unary(at)?;
        self.climb_from(no_in, least, at, first)
    }
}
