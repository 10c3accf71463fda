//! Places of a text, with what stands before them.

ghost use Rattle.std.specs.Prelude.{ℕ, List, ◌≡◌, ◌≤◌, ◌<◌, ◌+◌, ◌-◌, ◌&&◌, ◌==◌, not, nat_lt, length, drop, take, slice_index};
ghost use Rattle.std.specs.List.{list_any};
ghost use Rattle.mdg_text.specs.Characters as character;
ghost use Rattle.mdg_text.specs.Characters.{width};
ghost use Rattle.mdg_text.specs.Scanner.{before};
ghost use Rattle.mdg_text.specs.Cursor as spec;

use crate::characters::is_line_end;

/// A place: how many characters and bytes stand before it, and its line, from 1.
#[derive(Clone, Copy, Debug)]
pub(crate) struct Cursor {
    pub at: usize,
    pub offset: u32,
    pub line: u32,
}

/// Whether the character is LF after CR, which ends no line of its own.
fn is_second(text: &[char], i: usize) -> bool
    requires { i < length text.now }
    ensures { result ≡ spec.is_second text.now i }
{
    text[i] == '\n' && (0 < i && text[i - 1] == '\r')
}

fn ends_line(text: &[char], i: usize) -> bool
    requires { i < length text.now }
    ensures { result ≡ spec.ends_line text.now i }
{
    let is_second = is_second(text, i);
    is_line_end(text[i]) && !is_second
}

/// The place after the next character.
#[tactic(auto, using(crate::proofs::CursorLemmas::cursor_steps))]
fn advance_one(text: &[char], cursor: Cursor) -> Cursor
    requires short { length text.now ≤ 1048576 }
    requires small { width text.now ≤ 1048576 }
    requires inside { cursor.at < length text.now }
    requires is { spec.IsCursor text.now cursor }
    ensures is { spec.IsCursor text.now result }
    ensures at { result.at ≡ cursor.at + 1 }
{
    let ends_line = ends_line(text, cursor.at);
    let line = if ends_line {
        cursor.line + 1
    } else {
        cursor.line
    };
    let offset = cursor.offset + text[cursor.at].len_utf8() as u32;
    Cursor {
        at: cursor.at + 1,
        offset,
        line,
    }
}

/// A later place.
pub(crate) fn advance_to(text: &[char], from: Cursor, at: usize) -> Cursor
    requires short { length text.now ≤ 1048576 }
    requires small { width text.now ≤ 1048576 }
    requires order { from.at ≤ at }
    requires inside { at ≤ length text.now }
    requires is { spec.IsCursor text.now from }
    ensures is { spec.IsCursor text.now result }
    ensures at { result.at ≡ at }
{
    let mut cursor = from;
    while cursor.at < at {
        cursor = advance_one(text, cursor);
    }
    cursor
}

/// The start of any text.
pub(crate) fn start() -> Cursor
    ensures is { (text : List ℕ) → spec.IsCursor text result }
    ensures at { result.at ≡ 0 }
{
    Cursor {
        at: 0,
        offset: 0,
        line: 1,
    }
}

fn any_line_end(text: &[char]) -> bool
    ensures { result ≡ list_any character.is_line_end text.now }
{
    text.iter().any(|c| is_line_end(*c))
}

/// Whether a line end stands between two places, the first of them after a token.
#[tactic(auto, using(crate::proofs::PlaceLemmas::between))]
pub(crate) fn has_line_end(text: &[char], has_token: bool, from: usize, to: usize) -> bool
    requires order { from ≤ to }
    requires inside { to ≤ length text.now }
    ensures { result ≡ (has_token && list_any character.is_line_end (before (drop from text.now) (drop to text.now))) }
{
    has_token && any_line_end(&text[from..to])
}
