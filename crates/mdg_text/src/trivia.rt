//! White space, line ends and comments, 7.2 to 7.4, and the `#!` line. Each function answers the place after.

ghost use Rattle.std.specs.Prelude.{◌≡◌, ◌≤◌, ◌<◌, ◌+◌, ◌&&◌, ◌==◌, slice_index, length, drop, IfSome, None};
ghost use Rattle.mdg_text.specs.Characters.{starts};
ghost use Rattle.mdg_text.specs.Characters.{in_line};
ghost use Rattle.mdg_text.specs.Scanner as spec;
ghost use Rattle.mdg_text.specs.Places.{rest_at};

use crate::characters::{is_line_end, is_space};

/// Where the line ends that the place is in.
#[tactic(auto, using(crate::proofs::PlaceLemmas::skips))]
fn after_line(text: &[char], at: usize) -> usize
    requires { at ≤ length text.now }
    ensures from { at ≤ result }
    ensures bound { result ≤ length text.now }
    ensures rest { spec.skip in_line (drop at text.now) ≡ drop result text.now }
{
    let mut i = at;
    while i < text.len() {
        if is_line_end(text[i]) {
            return i;
        }
        i += 1;
    }
    i
}

fn is_comment_end_at(text: &[char], i: usize) -> bool
    requires { i + 1 < length text.now }
    ensures { result ≡ ((slice_index text.now i == 42) && (slice_index text.now (i + 1) == 47)) }
{
    text[i] == '*' && text[i + 1] == '/'
}

/// A place from which on no `*/` stands, the least but for a place inside the last one.
/// So a `/*` before it is closed, and no search for a close goes to the end in vain.
#[tactic(auto, using(crate::proofs::PlaceLemmas::back))]
pub(crate) fn last_close(text: &[char]) -> usize
    ensures bound { result ≤ length text.now }
    ensures none { spec.after_close (drop result text.now) ≡ None }
{
    let mut i = text.len();
    while 1 < i {
        if is_comment_end_at(text, i - 2) {
            return i - 1;
        }
        i -= 1;
    }
    0
}

/// After the next `*/`. `last` is a place from which on none stands.
#[tactic(auto, using(crate::proofs::PlaceLemmas::closing, crate::proofs::PlaceLemmas::closed))]
fn after_close(text: &[char], last: usize, at: usize) -> Option<usize>
    requires inside { at ≤ length text.now }
    requires last { spec.after_close (drop last text.now) ≡ None }
    ensures bound { IfSome result (λ i. i ≤ length text.now) }
    ensures rest { spec.after_close (drop at text.now) ≡ rest_at text.now result }
{
    if last <= at {
        return None;
    }
    let mut i = at;
    while i + 1 < text.len() {
        if is_comment_end_at(text, i) {
            return Some(i + 2);
        }
        i += 1;
    }
    None
}

/// After a comment, from the place after its first `/`.
#[tactic(auto, using(crate::proofs::PlaceLemmas::first_character), unfolding(crate::specs::Scanner::comment))]
fn comment(text: &[char], last: usize, at: usize) -> Option<usize>
    requires inside { at ≤ length text.now }
    requires last { spec.after_close (drop last text.now) ≡ None }
    ensures bound { IfSome result (λ i. i ≤ length text.now) }
    ensures rest { spec.comment (drop at text.now) ≡ rest_at text.now result }
{
    if at == text.len() {
        return None;
    }
    if text[at] == '/' {
        return Some(after_line(text, at + 1));
    }
    if text[at] == '*' {
        return after_close(text, last, at + 1);
    }
    None
}

/// After white space, a line end or a closed comment.
#[tactic(auto, using(crate::proofs::PlaceLemmas::first_character), unfolding(crate::specs::Scanner::skip_one))]
fn skip_one(text: &[char], last: usize, at: usize) -> Option<usize>
    requires inside { at ≤ length text.now }
    requires last { spec.after_close (drop last text.now) ≡ None }
    ensures bound { IfSome result (λ i. i ≤ length text.now) }
    ensures rest { spec.skip_one (drop at text.now) ≡ rest_at text.now result }
{
    if at == text.len() {
        return None;
    }
    if is_space(text[at]) || is_line_end(text[at]) {
        return Some(at + 1);
    }
    if text[at] == '/' {
        return comment(text, last, at + 1);
    }
    None
}

/// After all white space, line ends and comments.
#[tactic(auto, unfolding(crate::specs::Scanner::skip_trivia))]
pub(crate) fn skip_trivia(text: &[char], last: usize, at: usize) -> usize
    requires inside { at ≤ length text.now }
    requires last { spec.after_close (drop last text.now) ≡ None }
    ensures bound { result ≤ length text.now }
    ensures rest { spec.skip_trivia (length text.now) (drop at text.now) ≡ drop result text.now }
{
    let mut i = at;
    for _turn in 0..text.len() {
        let Some(next) = skip_one(text, last, i) else {
            return i;
        };
        i = next;
    }
    i
}

fn begins_script(text: &[char]) -> bool
    requires { 1 < length text.now }
    ensures { result ≡ ((slice_index text.now 0 == 35) && (slice_index text.now 1 == 33)) }
{
    text[0] == '#' && text[1] == '!'
}

/// After the `#!` line that a file may begin with.
#[tactic(auto, using(crate::proofs::PlaceLemmas::scripts))]
pub(crate) fn after_script(text: &[char]) -> usize
    ensures bound { result ≤ length text.now }
    ensures rest { spec.after_script text.now ≡ drop result text.now }
{
    if text.len() < 2 {
        return 0;
    }
    if begins_script(text) {
        return after_line(text, 2);
    }
    0
}
