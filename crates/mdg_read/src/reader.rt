//! The reader: the parser, with the reader itself for the parts.

ghost use Rattle.std.specs.Prelude.{◌≡◌, ℕ, ◌<◌, ◌≤◌, map, IfOk};
ghost use Rattle.mdg_read.specs.Parser.{Gives, IsLow};
ghost use Rattle.mdg_read.specs.Reference as reference;
ghost use Rattle.mdg_read.specs.Terminal as table;

use crate::parsed::Parsed;
use crate::parser::Parser;
use crate::production::Production;
use crate::refusal::ReadError;
use crate::terminal::Terminal;
use mdg_text::Token;
use mdg_tree::{Expr, Stmt};
use std::alloc::Global;

/// The expression of this production that begins at a place, and is no higher than the depth.
#[cycle(reader)]
pub fn read_expr(
    alloc: Global,
    tokens: &[Token],
    terminals: &[Terminal],
    depth: u32,
    production: Production,
    at: usize,
) -> Result<Parsed<Expr>, ReadError>
    requires known { terminals.now ≡ map table.token_terminal tokens.now }
    requires shallow { depth ≤ 1000 }
    ensures reads { Gives (reference.expr_at tokens.now depth production at) result }
    ensures low { IsLow depth result }
{
    if depth == 0 {
        return Err(ReadError::NoTree);
    }
    Parser {
        alloc,
        tokens,
        terminals,
        depth: depth - 1,
        expr: read_expr,
        stmt: read_stmt,
    }
    .any_expression(production, at)
}

/// The statement that begins at a place, and is no higher than the depth; where the flag is set, a
/// declared function too.
#[cycle(reader)]
pub fn read_stmt(
    alloc: Global,
    tokens: &[Token],
    terminals: &[Terminal],
    depth: u32,
    top: bool,
    at: usize,
) -> Result<Parsed<Stmt>, ReadError>
    requires known { terminals.now ≡ map table.token_terminal tokens.now }
    requires shallow { depth ≤ 1000 }
    ensures reads { Gives (reference.stmt_at tokens.now depth top at) result }
    ensures low { IsLow depth result }
{
    if depth == 0 {
        return Err(ReadError::NoTree);
    }
    Parser {
        alloc,
        tokens,
        terminals,
        depth: depth - 1,
        expr: read_expr,
        stmt: read_stmt,
    }
    .statement(top, at)
}
