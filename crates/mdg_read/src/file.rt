//! The tree of a file (14).

ghost use Rattle.std.specs.Prelude.{◌≡◌, ◌≢◌, ◌<◌, ◌≤◌, ◌+◌, ◌-◌, ℕ, Some, length, map, slice_get};
ghost use Rattle.mdg_tree.specs.declared.tree.FileTree.{FileTree as Tree};
ghost use Rattle.mdg_read.specs.Excluded.{IsCore, IsFirstExcluded};
ghost use Rattle.mdg_read.specs.Files.{Begins, HasCause, IsFile, ItemsCause, Reads, StartCause};
ghost use Rattle.mdg_read.specs.Files as files;
ghost use Rattle.mdg_read.specs.Terminal as table;

use crate::excluded::first_excluded_word;
use crate::lookahead::position_at;
use crate::reader::read_stmt;
use crate::refusal::{ReadError, ReadRefusal};
use crate::semicolon::{Terminator, insert_semicolon};
use crate::terminal::Terminal;
use crate::terminals::terminals_of;
use mdg_base::{Items, Text};
use mdg_text::{Token, TokenKind};
use mdg_tree::{FileTree, Stmt};
use std::alloc::Global;

/// The greatest height of an item of a file.
const ITEM_HEIGHT_LIMIT: u32 = 255;

/// The one tree, of height at most 256, that spells the tokens of a file: the directive
/// `use strict` and its semicolon, and then items up to the end (14, 14.1).
///
/// It refuses with `NotStrict` exactly where the tokens do not begin with the directive and its
/// semicolon, else with `NotCore` exactly where an excluded word names no property,
/// at the first such word, and else with `NoTree` exactly where no tree of the height allowed
/// spells the tokens, at the first token at which an item is due and none begins. Offsets are in
/// bytes. It also refuses where memory is refused.
pub fn read_file(alloc: Global, tokens: &[Token]) -> Result<FileTree, ReadRefusal>
    ensures cause { HasCause tokens.now result }
    ensures only { IsCore tokens.now → (tree : Tree) → IsFile tokens.now tree → Reads result tree }
{
    let terminals = terminals_of(alloc, tokens)?;
    let start = items_start(tokens, terminals.as_slice())?;
    if let Some(at) = first_excluded_word(tokens, terminals.as_slice()) {
        return Err(excluded_word(alloc, tokens, at));
    }
    let items = read_items(alloc, tokens, terminals.as_slice(), start)?;
    Ok(FileTree {
        at: position_at(tokens, 0),
        items,
    })
}

/// The place at which the items begin.
fn items_start(tokens: &[Token], terminals: &[Terminal]) -> Result<usize, ReadRefusal>
    requires { terminals.now ≡ map table.token_terminal tokens.now }
    ensures { StartCause tokens.now result }
{
    if !has_directive(tokens) {
        return Err(ReadRefusal::NotStrict);
    }
    match insert_semicolon(tokens, terminals, Terminator::Plain, 1) {
        Ok(start) => Ok(start),
        Err(ReadError::NoTree) => Err(ReadRefusal::NotStrict),
        Err(ReadError::NoMemory) => Err(ReadRefusal::NoMemory),
    }
}

fn has_directive(tokens: &[Token]) -> bool
    ensures { result ≡ files.is_directive (slice_get tokens.now 0) }
{
    match tokens.get(0) {
        Some(token) => is_directive(token),
        None => false,
    }
}

/// Whether it is the directive, written without escapes.
fn is_directive(token: &Token) -> bool
    ensures { result ≡ files.is_directive (Some token.now) }
{
    let length = token.to as u64 == token.from as u64 + 12;
    is_text(token.kind) && token.text.as_str() == "use strict" && length
}

fn is_text(kind: TokenKind) -> bool
    ensures { result ≡ files.is_text kind }
{
    match kind {
        TokenKind::Text => true,
        _ => false,
    }
}

fn excluded_word(alloc: Global, tokens: &[Token], at: usize) -> ReadRefusal
    requires { at < length tokens.now }
    ensures { files.RefusesWord tokens.now at result }
{
    let token = &tokens[at];
    match Text::of(alloc, token.text.as_str()) {
        Ok(word) => ReadRefusal::NotCore(word, token.from),
        Err(_) => ReadRefusal::NoMemory,
    }
}

/// The items from a place on, up to the end.
fn read_items(
    alloc: Global,
    tokens: &[Token],
    terminals: &[Terminal],
    start: usize,
) -> Result<Items<Stmt>, ReadRefusal>
    requires known { terminals.now ≡ map table.token_terminal tokens.now }
    requires begins { Begins tokens.now start }
    ensures { ItemsCause tokens.now start result }
{
    let mut items = Items::create(alloc);
    let mut at = start;
    while at < tokens.len() {
        match read_stmt(alloc, tokens, terminals, ITEM_HEIGHT_LIMIT, true, at) {
            Ok(one) => {
                items.push(one.tree)?;
                at = one.next;
            }
            Err(ReadError::NoMemory) => return Err(ReadRefusal::NoMemory),
            Err(ReadError::NoTree) => return Err(ReadRefusal::NoTree(tokens[at].from)),
        }
    }
    Ok(items)
}
