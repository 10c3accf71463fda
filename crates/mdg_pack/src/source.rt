//! What a file is: its tokens, its tree and its bindings, or the refusal that comes first.
ghost use Rattle.std.specs.Prelude.{◌≡◌, ◌≤◌, length, Ok, Err};
ghost use Rattle.mdg_pack.specs.Load as spec;
ghost use Rattle.mdg_pack.specs.LoadAnswers.{IsLoaded, IsTextAnswer, IsTokens, IsTree, ReadAnswer, ScopeAnswer};
ghost use Rattle.mdg_read.specs.Files as files;
ghost use Rattle.mdg_scope.specs.Bindings as bindings;
ghost use Rattle.mdg_text.specs.Causes as tokens;
ghost use Rattle.mdg_text.specs.Lines as lines;

use crate::PackFault;
use mdg_base::{Items, Text};
use mdg_profile::Profile;
use mdg_read::{ReadRefusal, read_file};
use mdg_scope::{Bound, ScopeRefusal, bind};
use mdg_text::{TextFault, Token, line_of, tokens};
use mdg_tree::FileTree;
use std::alloc::Global;

// The line of an offset; past the end, that of the end.
#[tactic(auto, using(crate::proofs::LineLemmas::line_within))]
fn line_at(bytes: &[u8], offset: u32) -> u32
    requires { length bytes.now ≤ 1048576 }
    ensures { result ≡ lines.line_at bytes.now offset }
{
    line_of(bytes, offset.min(bytes.len() as u32))
}

fn text_line(bytes: &[u8], refusal: TextFault) -> u32
    requires { length bytes.now ≤ 1048576 }
    ensures { result ≡ spec.text_line bytes.now refusal }
{
    match refusal {
        TextFault::NotUtf8(offset) | TextFault::BadToken(offset) => line_at(bytes, offset),
        TextFault::TooManyTokens(_) | TextFault::NoMemory => 1,
    }
}

fn read_line(bytes: &[u8], refusal: &ReadRefusal) -> u32
    requires { length bytes.now ≤ 1048576 }
    ensures { result ≡ spec.read_line bytes.now refusal.now }
{
    match refusal {
        ReadRefusal::NotCore(_, offset) | ReadRefusal::NoTree(offset) => line_at(bytes, *offset),
        ReadRefusal::NotStrict | ReadRefusal::NoMemory => 1,
    }
}

fn scope_line(bytes: &[u8], refusal: &ScopeRefusal) -> u32
    requires { length bytes.now ≤ 1048576 }
    ensures { result ≡ spec.scope_line bytes.now refusal.now }
{
    match refusal {
        ScopeRefusal::BadBinding(_, offset) | ScopeRefusal::Unbound(_, offset) => {
            line_at(bytes, *offset)
        }
        ScopeRefusal::BadRequire(offset)
        | ScopeRefusal::BadNew(offset)
        | ScopeRefusal::BadJump(offset) => line_at(bytes, *offset),
        ScopeRefusal::NoMemory => 1,
    }
}

// The refusal of a file that is no list of tokens.
fn text_refused(alloc: Global, path: &str, bytes: &[u8], refusal: TextFault) -> PackFault
    requires short { length bytes.now ≤ 1048576 }
    requires cause { tokens.HasCause bytes.now (Err refusal) }
    ensures { IsTextAnswer path.now bytes.now result }
{
    if refusal == TextFault::NoMemory {
        return PackFault::NoMemory;
    }
    let line = text_line(bytes, refusal);
    match Text::of(alloc, path) {
        Ok(path) => PackFault::Text(path, refusal, line),
        Err(_) => PackFault::NoMemory,
    }
}

fn tokens_of(alloc: Global, path: &str, bytes: &[u8]) -> Result<Items<Token>, PackFault>
    requires { length bytes.now ≤ 1048576 }
    ensures { IsTokens path.now bytes.now result }
{
    match tokens(alloc, bytes) {
        Ok(tokens) => Ok(tokens),
        Err(refusal) => Err(text_refused(alloc, path, bytes, refusal)),
    }
}

// The refusal of a file that has no tree.
fn read_refused(alloc: Global, path: &str, bytes: &[u8], refusal: ReadRefusal) -> PackFault
    requires { length bytes.now ≤ 1048576 }
    ensures { ReadAnswer path.now bytes.now refusal result }
{
    if matches!(refusal, ReadRefusal::NoMemory) {
        return PackFault::NoMemory;
    }
    let line = read_line(bytes, &refusal);
    match Text::of(alloc, path) {
        Ok(path) => PackFault::Read(path, refusal, line),
        Err(_) => PackFault::NoMemory,
    }
}

fn tree_of(alloc: Global, path: &str, bytes: &[u8], tokens: &[Token]) -> Result<FileTree, PackFault>
    requires short { length bytes.now ≤ 1048576 }
    ensures { IsTree path.now bytes.now tokens.now result }
{
    match read_file(alloc, tokens) {
        Ok(tree) => Ok(tree),
        Err(refusal) => Err(read_refused(alloc, path, bytes, refusal)),
    }
}

// The refusal of a file whose names, requires, `new` or jumps break a rule.
fn scope_refused(alloc: Global, path: &str, bytes: &[u8], refusal: ScopeRefusal) -> PackFault
    requires { length bytes.now ≤ 1048576 }
    ensures { ScopeAnswer path.now bytes.now refusal result }
{
    if matches!(refusal, ScopeRefusal::NoMemory) {
        return PackFault::NoMemory;
    }
    let line = scope_line(bytes, &refusal);
    match Text::of(alloc, path) {
        Ok(path) => PackFault::Scope(path, refusal, line),
        Err(_) => PackFault::NoMemory,
    }
}

/// The file at a path that has these bytes, with its bindings. Its text, its tree and its names are tested in this
/// order.
pub fn load_file(
    alloc: Global,
    path: &str,
    bytes: &[u8],
    profile: &Profile,
) -> Result<Bound, PackFault>
    requires { length bytes.now ≤ 1048576 }
    ensures { IsLoaded profile.now path.now bytes.now result }
{
    let tokens = tokens_of(alloc, path, bytes)?;
    let tree = tree_of(alloc, path, bytes, tokens.as_slice())?;
    match bind(alloc, path, tree, profile) {
        Ok(bound) => Ok(bound),
        Err(refusal) => Err(scope_refused(alloc, path, bytes, refusal)),
    }
}
