//! The parser of productions. The functions that read the parts are parameters, so that each production is proved by itself.

ghost use Rattle.std.specs.Prelude.{true, false, suc, Some, ◌≡◌, ◌≢◌, ◌+◌, ◌<◌, ◌≤◌, length};
ghost use Rattle.mdg_read.specs.Parser.{Gives, IsLow, Ready};
ghost use Rattle.mdg_read.specs.Combinators as combinators;
ghost use Rattle.mdg_read.specs.Reference as reference;
ghost use Rattle.mdg_read.specs.TokenClass as class;
ghost use Rattle.mdg_read.specs.Tokens as seen;

use crate::lookahead::{is_property_name, position_at, terminal_at};
use crate::parsed::Parsed;
use crate::production::Production;
use crate::refusal::ReadError;
use crate::terminal::Terminal;
use crate::token_class::same;
use mdg_base::Text;
use mdg_text::Token;
use mdg_tree::{At, Expr, Stmt};
use sqlite_items::Boxed;
use std::alloc::Global;

/// The tokens, how high a part may be, and the functions that read the parts.
#[derive(Clone, Copy)]
pub struct Parser<'a, F, S> {
    pub alloc: Global,
    pub tokens: &'a [Token],
    pub terminals: &'a [Terminal],

    /// How high a part may be.
    pub depth: u32,
    pub expr: F,
    pub stmt: S,
}

impl<
    'a,
    F: Fn(Global, &[Token], &[Terminal], u32, Production, usize) -> Result<Parsed<Expr>, ReadError>,
    S: Fn(Global, &[Token], &[Terminal], u32, bool, usize) -> Result<Parsed<Stmt>, ReadError>,
> Parser<'a, F, S> {
    /// The expression of a production that begins at a place (11).
    pub fn expr(&self, production: Production, at: usize) -> Result<Parsed<Expr>, ReadError>
        requires { Ready self.now.tokens.now self.now.terminals.now self.now.depth (F.pre self.now.expr) (F.post self.now.expr) (S.pre self.now.stmt) (S.post self.now.stmt) }
        ensures reads { Gives (reference.expr_at self.now.tokens.now self.now.depth production at) result }
        ensures low { IsLow self.now.depth result }
    {
        (self.expr)(
            self.alloc,
            self.tokens,
            self.terminals,
            self.depth,
            production,
            at,
        )
    }

    /// The statement that begins at a place (12); where the flag is set, a declared function too.
    pub fn stmt(&self, top: bool, at: usize) -> Result<Parsed<Stmt>, ReadError>
        requires { Ready self.now.tokens.now self.now.terminals.now self.now.depth (F.pre self.now.expr) (F.post self.now.expr) (S.pre self.now.stmt) (S.post self.now.stmt) }
        ensures reads { Gives (reference.stmt_at self.now.tokens.now self.now.depth top at) result }
        ensures low { IsLow self.now.depth result }
    {
        (self.stmt)(self.alloc, self.tokens, self.terminals, self.depth, top, at)
    }

    /// What the grammar sees of a token.
    pub fn terminal(&self, at: usize) -> Terminal
        requires { Ready self.now.tokens.now self.now.terminals.now self.now.depth (F.pre self.now.expr) (F.post self.now.expr) (S.pre self.now.stmt) (S.post self.now.stmt) }
        ensures terminal { result ≡ seen.terminal_at self.now.tokens.now at }
        ensures inside { result ≢ Terminal.End → at < length self.now.tokens.now }
    {
        terminal_at(self.tokens, self.terminals, at)
    }

    /// The place after a token.
    pub fn after(&self, at: usize) -> usize
        requires { at < length self.now.tokens.now }
        ensures { result ≡ at + 1 }
    {
        let _count = self.tokens.len();
        at + 1
    }

    /// Where a token begins: its line, and its offset in bytes.
    pub fn position(&self, at: usize) -> At
        ensures { result ≡ seen.position_at self.now.tokens.now at }
    {
        position_at(self.tokens, at)
    }

    /// Whether a property name stands at a place (11.2.1).
    #[tactic(auto, using(crate::proofs::PropertyNames::name_within))]
    pub fn is_property_name(&self, at: usize) -> bool
        ensures value { result ≡ seen.is_property_name self.now.tokens.now at }
        ensures inside { result ≡ true → at < length self.now.tokens.now }
    {
        is_property_name(self.tokens, at)
    }

    /// The text of a token.
    #[tactic(auto, unfolding(crate::specs::Tokens::text_at))]
    pub fn text(&self, at: usize) -> Result<Text, ReadError>
        ensures { Gives (Some (seen.text_at self.now.tokens.now at)) result }
    {
        match self.tokens.get(at) {
            Some(token) => Ok(Text::of(self.alloc, token.text.as_str())?),
            None => Ok(Text::of(self.alloc, "")?),
        }
    }

    /// Whether a token stands after a line end (7.9).
    #[tactic(auto, unfolding(crate::specs::Tokens::line_before_at))]
    pub fn line_before(&self, at: usize) -> bool
        ensures { result ≡ seen.line_before_at self.now.tokens.now at }
    {
        match self.tokens.get(at) {
            Some(token) => token.line_before,
            None => false,
        }
    }

    /// The place after this token, where it stands.
    #[tactic(auto, unfolding(crate::specs::Combinators::expect))]
    pub fn expect(&self, terminal: Terminal, at: usize) -> Result<usize, ReadError>
        requires ready { Ready self.now.tokens.now self.now.terminals.now self.now.depth (F.pre self.now.expr) (F.post self.now.expr) (S.pre self.now.stmt) (S.post self.now.stmt) }
        requires plain { class.is_operator terminal ≡ false }
        requires some { terminal ≢ Terminal.End }
        ensures { Gives (combinators.expect self.now.tokens.now terminal at) result }
    {
        let found = self.terminal(at);
        if same(found, terminal) {
            Ok(self.after(at))
        } else {
            Err(ReadError::NoTree)
        }
    }

    /// What was read, where it is no higher than one above a part.
    #[tactic(auto, unfolding(crate::specs::Combinators::bounded))]
    pub fn bounded<T: Drop>(&self, read: Parsed<T>) -> Result<Parsed<T>, ReadError>
        ensures reads { Gives (combinators.bounded (suc self.now.depth) read) result }
        ensures low { IsLow (self.now.depth + 1) result }
    {
        if read.height.saturating_sub(1) <= self.depth {
            Ok(read)
        } else {
            Err(ReadError::NoTree)
        }
    }

    /// A part of an expression, on the heap.
    pub fn part(&self, production: Production, at: usize) -> Result<Parsed<Boxed<Expr>>, ReadError>
        requires ready { Ready self.now.tokens.now self.now.terminals.now self.now.depth (F.pre self.now.expr) (F.post self.now.expr) (S.pre self.now.stmt) (S.post self.now.stmt) }
        ensures reads { Gives (reference.expr_at self.now.tokens.now self.now.depth production at) result }
        ensures low { IsLow self.now.depth result }
    {
        let read = self.expr(production, at)?;
        self.boxed(read)
    }

    /// What was read, with its tree on the heap.
    pub fn boxed(&self, read: Parsed<Expr>) -> Result<Parsed<Boxed<Expr>>, ReadError>
        ensures { Gives (Some read) result }
    {
        let Parsed { tree, height, next } = read;
        Ok(Parsed {
            tree: Boxed::new(self.alloc, tree)?,
            height,
            next,
        })
    }
}
