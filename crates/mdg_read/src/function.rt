//! Functions (13).

ghost use Rattle.std.specs.Prelude.{[], true, suc, Some, ◌≡◌, ◌≢◌, ◌+◌, ◌-◌, ◌<◌, ◌≤◌, length, IfOk, MatchResult};
ghost use Rattle.mdg_read.specs.Parser.{Gives, IsLow, Ready};
ghost use Rattle.mdg_read.specs.AtDepth as at_depth;
ghost use Rattle.mdg_read.specs.Combinators as combinators;
ghost use Rattle.mdg_read.specs.Tokens as seen;

use crate::parsed::{Parameters, Parsed};
use crate::parser::Parser;
use crate::production::Production;
use crate::refusal::ReadError;
use crate::terminal::Terminal;
use crate::token_class::{ends_block, same};
use mdg_base::Text;
use mdg_text::Token;
use mdg_tree::{Expr, Function, Stmt};
use sqlite_items::Items;
use std::alloc::Global;

impl<
    'a,
    F: Fn(Global, &[Token], &[Terminal], u32, Production, usize) -> Result<Parsed<Expr>, ReadError>,
    S: Fn(Global, &[Token], &[Terminal], u32, bool, usize) -> Result<Parsed<Stmt>, ReadError>,
> Parser<'a, F, S> {
    /// Statements up to a brace or the end; where the flag is set, declared functions too.
    pub fn items(&self, top: bool, mut at: usize) -> Result<Parsed<Items<Stmt>>, ReadError>
        requires ready { Ready self.now.tokens.now self.now.terminals.now self.now.depth (F.pre self.now.expr) (F.post self.now.expr) (S.pre self.now.stmt) (S.post self.now.stmt) }
        ensures reads { Gives (at_depth.items self.now.tokens.now self.now.depth top at) result }
        ensures low { IsLow self.now.depth result }
    {
        let mut body = Items::new(self.alloc);
        let mut height = 0;
        for _iteration in 0..self.tokens.len() + 1 {
            let terminal = self.terminal(at);
            if ends_block(terminal) {
                return Ok(Parsed {
                    tree: body,
                    height,
                    next: at,
                });
            }
            let one = self.stmt(top, at)?;
            body.push(one.tree)?;
            height = height.max(one.height);
            at = one.next;
        }
        Err(ReadError::NoTree)
    }

    fn names_from(&self, mut at: usize) -> Result<Parameters, ReadError>
        requires ready { Ready self.now.tokens.now self.now.terminals.now self.now.depth (F.pre self.now.expr) (F.post self.now.expr) (S.pre self.now.stmt) (S.post self.now.stmt) }
        ensures { Gives (combinators.names_from self.now.tokens.now (length self.now.tokens.now) [] [] at) result }
    {
        let mut names = mdg_base::Items::create(self.alloc);
        let mut offsets = mdg_base::Items::create(self.alloc);
        for _iteration in 0..self.tokens.len() {
            let next = self.expect(Terminal::Name, at)?;
            names.push(self.text(at)?)?;
            offsets.push(self.position(at).offset)?;
            let terminal = self.terminal(next);
            if !same(terminal, Terminal::Comma) {
                return Ok(Parameters {
                    names,
                    offsets,
                    next,
                });
            }
            at = self.after(next);
        }
        Err(ReadError::NoTree)
    }

    #[tactic(auto, unfolding(crate::specs::Combinators::some_parameters))]
    fn some_parameters(&self, at: usize) -> Result<Parameters, ReadError>
        requires ready { Ready self.now.tokens.now self.now.terminals.now self.now.depth (F.pre self.now.expr) (F.post self.now.expr) (S.pre self.now.stmt) (S.post self.now.stmt) }
        ensures { Gives (combinators.some_parameters self.now.tokens.now at) result }
    {
        let found = self.names_from(at)?;
        let next = self.expect(Terminal::CloseParen, found.next)?;
        Ok(Parameters {
            names: found.names,
            offsets: found.offsets,
            next,
        })
    }

    /// The parameters of a function, with their parentheses.
    #[tactic(auto, unfolding(crate::specs::Combinators::parameter_list))]
    fn parameter_list(&self, at: usize) -> Result<Parameters, ReadError>
        requires ready { Ready self.now.tokens.now self.now.terminals.now self.now.depth (F.pre self.now.expr) (F.post self.now.expr) (S.pre self.now.stmt) (S.post self.now.stmt) }
        ensures { Gives (combinators.parameter_list self.now.tokens.now at) result }
    {
        let next = self.expect(Terminal::OpenParen, at)?;
        let terminal = self.terminal(next);
        if !same(terminal, Terminal::CloseParen) {
            return self.some_parameters(next);
        }
        Ok(Parameters {
            names: mdg_base::Items::create(self.alloc),
            offsets: mdg_base::Items::create(self.alloc),
            next: self.after(next),
        })
    }

    fn defined(
        &self,
        name: Option<Text>,
        name_offset: u32,
        start: usize,
        parameters: Parameters,
        body: Items<Stmt>,
    ) -> Function
        ensures { result ≡ record { name = name; name_offset = name_offset; parameters = parameters.names; parameter_offsets = parameters.offsets; body = body; line = (seen.position_at self.now.tokens.now start).line; offset = seen.offset_at self.now.tokens.now start } }
    {
        let at = self.position(start);
        Function {
            name,
            name_offset,
            parameters: parameters.names,
            parameter_offsets: parameters.offsets,
            body,
            line: at.line,
            offset: at.offset,
        }
    }

    /// A function whose keyword stands at the start, and whose parameters begin at `at`.
    #[tactic(auto, unfolding(crate::specs::ReferenceOperands::function_from))]
    fn function_from(
        &self,
        name: Option<Text>,
        name_offset: u32,
        start: usize,
        at: usize,
    ) -> Result<Parsed<Function>, ReadError>
        requires ready { Ready self.now.tokens.now self.now.terminals.now self.now.depth (F.pre self.now.expr) (F.post self.now.expr) (S.pre self.now.stmt) (S.post self.now.stmt) }
        ensures reads { Gives (at_depth.function_from self.now.tokens.now self.now.depth name name_offset start at) result }
        ensures low { IsLow (self.now.depth + 1) result }
    {
        let parameters = self.parameter_list(at)?;
        let next = self.expect(Terminal::OpenBrace, parameters.next)?;
        let body = self.items(true, next)?;
        let next = self.expect(Terminal::CloseBrace, body.next)?;
        Ok(Parsed {
            tree: self.defined(name, name_offset, start, parameters, body.tree),
            height: body.height + 1,
            next,
        })
    }

    #[tactic(auto, unfolding(crate::specs::ReferenceOperands::named_function))]
    pub fn named_function(&self, at: usize) -> Result<Parsed<Function>, ReadError>
        requires ready { Ready self.now.tokens.now self.now.terminals.now self.now.depth (F.pre self.now.expr) (F.post self.now.expr) (S.pre self.now.stmt) (S.post self.now.stmt) }
        requires inside { at + 1 < length self.now.tokens.now }
        ensures reads { Gives (at_depth.named_function self.now.tokens.now self.now.depth at) result }
        ensures low { IsLow (self.now.depth + 1) result }
    {
        let name = self.after(at);
        let text = self.text(name)?;
        let offset = self.position(name).offset;
        self.function_from(Some(text), offset, at, self.after(name))
    }

    #[tactic(auto, unfolding(crate::specs::ReferenceOperands::any_function))]
    fn any_function(&self, at: usize) -> Result<Parsed<Function>, ReadError>
        requires ready { Ready self.now.tokens.now self.now.terminals.now self.now.depth (F.pre self.now.expr) (F.post self.now.expr) (S.pre self.now.stmt) (S.post self.now.stmt) }
        requires inside { at < length self.now.tokens.now }
        ensures reads { Gives (at_depth.any_function self.now.tokens.now self.now.depth at) result }
        ensures low { IsLow (self.now.depth + 1) result }
    {
        let next = self.after(at);
        let terminal = self.terminal(next);
        if same(terminal, Terminal::Name) {
            self.named_function(at)
        } else {
            self.function_from(None, self.position(at).offset, at, next)
        }
    }

    /// A function expression, whose name may be absent.
    #[tactic(auto, unfolding(crate::specs::ReferenceOperands::function))]
    pub fn function(&self, at: usize) -> Result<Parsed<Expr>, ReadError>
        requires ready { Ready self.now.tokens.now self.now.terminals.now self.now.depth (F.pre self.now.expr) (F.post self.now.expr) (S.pre self.now.stmt) (S.post self.now.stmt) }
        requires inside { at < length self.now.tokens.now }
        ensures reads { Gives (at_depth.function self.now.tokens.now self.now.depth at) result }
        ensures low { IsLow (self.now.depth + 1) result }
    {
        let made = self.any_function(at)?;
        Ok(Parsed {
            tree: Expr::FunctionExpression(made.tree),
            height: made.height,
            next: made.next,
        })
    }
}
