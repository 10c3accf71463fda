//! String literals, 7.8.4.

ghost use Rattle.std.specs.Prelude.{◌≡◌, ◌≤◌, ◌<◌, ◌+◌, ◌*◌, ◌-◌, ◌++◌, ◌==◌, ◌&&◌, slice_index, length, drop, [], IfOk, IfSome, OnOk, IsTrue};
ghost use Rattle.std.specs.Char.{IsScalar};
ghost use Rattle.mdg_text.specs.Characters.{starts};
ghost use Rattle.mdg_text.specs.Characters as character;
ghost use Rattle.mdg_text.specs.StringLiteral.{paired, two_digits};
ghost use Rattle.mdg_text.specs.StringLiteral as literal;
ghost use Rattle.mdg_text.specs.Scanner as spec;
ghost use Rattle.mdg_text.specs.Places.{unit_at, scanned_at, scanned_string_at, option_list};

use crate::characters::{hex_value, is_digit, is_hex_digit, is_high, is_line_end, is_low};
use crate::number::starts_digit;
use std::alloc::{AllocError, Global};

/// A unit of UTF-16, and the place after its digits.
#[derive(Clone, Copy, Debug)]
pub(crate) struct CodeUnit {
    pub value: u32,
    pub next: usize,
}

/// What one character of a string or its escape sequence stands for, if anything, and the place after it.
#[derive(Clone, Copy, Debug)]
pub(crate) struct Scanned {
    pub value: Option<char>,
    pub next: usize,
}

/// What a string literal stands for, and the place after it.
#[derive(Debug, Drop)]
pub(crate) struct ScannedString {
    pub value: Vec<char>,
    pub next: usize,
}

fn two_hex_at(text: &[char], at: usize) -> bool
    requires { at + 1 < length text.now }
    ensures { result ≡ (character.is_hex_digit (slice_index text.now at) && character.is_hex_digit (slice_index text.now (at + 1))) }
{
    is_hex_digit(text[at]) && is_hex_digit(text[at + 1])
}

/// What two hexadecimal digits count for.
fn two_hex_value(text: &[char], at: usize) -> u32
    requires inside { at + 1 < length text.now }
    requires hex { IsTrue (character.is_hex_digit (slice_index text.now at) && character.is_hex_digit (slice_index text.now (at + 1))) }
    ensures value { result ≡ two_digits (slice_index text.now at) (slice_index text.now (at + 1)) }
    ensures small { result < 256 }
{
    hex_value(text[at]) * 16 + hex_value(text[at + 1])
}

/// The character with this number.
fn character_of(code: u32) -> char
    requires { IsScalar code }
    ensures { result ≡ code }
{
    match char::from_u32(code) {
        Some(c) => c,
        None => unreachable!(),
    }
}

/// A unit of UTF-16 by its four hexadecimal digits.
#[tactic(auto, using(crate::proofs::UnitLemmas::hex4_steps))]
fn hex4(text: &[char], at: usize) -> Option<CodeUnit>
    requires { at ≤ length text.now }
    ensures small { IfSome result (λ u. u.value < 65536) }
    ensures bound { IfSome result (λ u. u.next ≤ length text.now) }
    ensures reads { spec.hex4 (drop at text.now) ≡ unit_at text.now result }
{
    if text.len() - at < 4 {
        return None;
    }
    if !two_hex_at(text, at) {
        return None;
    }
    if !two_hex_at(text, at + 2) {
        return None;
    }
    let value = two_hex_value(text, at) * 256 + two_hex_value(text, at + 2);
    Some(CodeUnit {
        value,
        next: at + 4,
    })
}

fn begins_unicode_escape(text: &[char], at: usize) -> bool
    requires { at + 1 < length text.now }
    ensures { result ≡ ((slice_index text.now at == 92) && (slice_index text.now (at + 1) == 117)) }
{
    text[at] == '\\' && text[at + 1] == 'u'
}

/// A unit that `\u` begins.
#[tactic(auto, using(crate::proofs::UnitLemmas::second_steps))]
fn second_hex4(text: &[char], at: usize) -> Option<CodeUnit>
    requires { at ≤ length text.now }
    ensures small { IfSome result (λ u. u.value < 65536) }
    ensures bound { IfSome result (λ u. u.next ≤ length text.now) }
    ensures reads { spec.second_hex4 (drop at text.now) ≡ unit_at text.now result }
{
    if text.len() - at < 2 {
        return None;
    }
    if begins_unicode_escape(text, at) {
        return hex4(text, at + 2);
    }
    None
}

/// The number of the character of a pair of surrogates, from the first of them and the place after it.
#[tactic(auto, unfolding(crate::specs::Scanner::low_hex4, crate::specs::Characters::is_high, crate::specs::Characters::is_low, crate::specs::Characters::within))]
fn low_hex4(text: &[char], high: u32, at: usize) -> Option<CodeUnit>
    requires inside { at ≤ length text.now }
    requires high { IsTrue (character.is_high high) }
    ensures scalar { IfSome result (λ u. IsScalar u.value) }
    ensures bound { IfSome result (λ u. u.next ≤ length text.now) }
    ensures reads { spec.low_hex4 high (drop at text.now) ≡ unit_at text.now result }
{
    let low = second_hex4(text, at)?;
    if !is_low(low.value) {
        return None;
    }
    let value = 0x10000 + (high - 0xD800) * 0x400 + (low.value - 0xDC00);
    Some(CodeUnit {
        value,
        next: low.next,
    })
}

/// The number of the character by its number after `\u`, as one unit or as a pair.
#[tactic(auto, using(crate::proofs::UnitLemmas::scalar_single), unfolding(crate::specs::Scanner::unicode))]
fn unicode(text: &[char], at: usize) -> Option<CodeUnit>
    requires { at ≤ length text.now }
    ensures scalar { IfSome result (λ u. IsScalar u.value) }
    ensures bound { IfSome result (λ u. u.next ≤ length text.now) }
    ensures reads { spec.unicode (drop at text.now) ≡ unit_at text.now result }
{
    let first = hex4(text, at)?;
    if is_high(first.value) {
        return low_hex4(text, first.value, first.next);
    }
    if is_low(first.value) {
        return None;
    }
    Some(first)
}

#[tactic(auto, unfolding(crate::specs::Scanner::unicode_escape))]
fn unicode_escape(text: &[char], at: usize) -> Option<Scanned>
    requires { at ≤ length text.now }
    ensures bound { IfSome result (λ e. e.next ≤ length text.now) }
    ensures reads { spec.unicode_escape (drop at text.now) ≡ scanned_at text.now result }
{
    let code = unicode(text, at)?;
    let value = character_of(code.value);
    Some(Scanned {
        value: Some(value),
        next: code.next,
    })
}

/// A character by its number after `\x`.
#[tactic(auto, using(crate::proofs::UnitLemmas::hex_steps, crate::proofs::UnitLemmas::scalar_small))]
fn hex_escape(text: &[char], at: usize) -> Option<Scanned>
    requires { at ≤ length text.now }
    ensures bound { IfSome result (λ e. e.next ≤ length text.now) }
    ensures reads { spec.hex_escape (drop at text.now) ≡ scanned_at text.now result }
{
    if text.len() - at < 2 {
        return None;
    }
    if !two_hex_at(text, at) {
        return None;
    }
    let value = character_of(two_hex_value(text, at));
    Some(Scanned {
        value: Some(value),
        next: at + 2,
    })
}

/// NUL, if the digit after the backslash is 0 and no other digit follows.
#[tactic(auto, unfolding(crate::specs::Scanner::null_escape))]
fn null_escape(text: &[char], c: char, at: usize) -> Option<Scanned>
    requires { at ≤ length text.now }
    ensures bound { IfSome result (λ e. e.next ≤ length text.now) }
    ensures reads { spec.null_escape c (drop at text.now) ≡ scanned_at text.now result }
{
    if c == '0' && !starts_digit(text, at) {
        return Some(Scanned {
            value: Some('\0'),
            next: at,
        });
    }
    None
}

#[tactic(auto, unfolding(crate::specs::StringLiteral::escaped))]
fn escaped(c: char) -> char
    ensures { result ≡ literal.escaped c }
{
    match c {
        'b' => '\u{8}',
        't' => '\t',
        'n' => '\n',
        'v' => '\u{b}',
        'f' => '\u{c}',
        'r' => '\r',
        _ => c,
    }
}

fn is_line_feed_at(text: &[char], at: usize) -> bool
    requires { at ≤ length text.now }
    ensures { result ≡ starts (λ d. d == 10) (drop at text.now) }
{
    if at == text.len() {
        return false;
    }
    text[at] == '\n'
}

/// After the line end whose first character is `c`.
#[tactic(auto, unfolding(crate::specs::Scanner::after_line_end))]
fn after_line_end(text: &[char], c: char, at: usize) -> usize
    requires { at ≤ length text.now }
    ensures bound { result ≤ length text.now }
    ensures rest { spec.after_line_end c (drop at text.now) ≡ drop result text.now }
{
    if c == '\r' {
        if is_line_feed_at(text, at) {
            return at + 1;
        }
        return at;
    }
    at
}

/// What stands after a backslash.
#[tactic(auto, using(crate::proofs::PlaceLemmas::first_character), unfolding(crate::specs::Scanner::escape))]
fn escape(text: &[char], at: usize) -> Option<Scanned>
    requires { at ≤ length text.now }
    ensures bound { IfSome result (λ e. e.next ≤ length text.now) }
    ensures reads { spec.escape (drop at text.now) ≡ scanned_at text.now result }
{
    if at == text.len() {
        return None;
    }
    let c = text[at];
    if is_line_end(c) {
        let next = after_line_end(text, c, at + 1);
        return Some(Scanned { value: None, next });
    }
    if is_digit(c) {
        return null_escape(text, c, at + 1);
    }
    if c == 'x' {
        return hex_escape(text, at + 1);
    }
    if c == 'u' {
        return unicode_escape(text, at + 1);
    }
    let value = escaped(c);
    Some(Scanned {
        value: Some(value),
        next: at + 1,
    })
}

/// What stands before the closing quote: one character, or an escape.
#[tactic(auto, using(crate::proofs::PlaceLemmas::first_character), unfolding(crate::specs::Scanner::string_character))]
fn string_character(text: &[char], at: usize) -> Option<Scanned>
    requires { at ≤ length text.now }
    ensures bound { IfSome result (λ e. e.next ≤ length text.now) }
    ensures reads { spec.string_character (drop at text.now) ≡ scanned_at text.now result }
{
    if at == text.len() {
        return None;
    }
    let c = text[at];
    if is_line_end(c) {
        return None;
    }
    if c == '\\' {
        return escape(text, at + 1);
    }
    Some(Scanned {
        value: Some(c),
        next: at + 1,
    })
}

fn push_value(value: &mut Vec<char>, c: Option<char>) -> Result<(), AllocError>
    ensures { OnOk result (value.new.items ≡ value.old.items ++ option_list c) }
{
    match c {
        Some(c) => Ok(value.push(c)?),
        None => Ok(()),
    }
}

/// What a string literal stands for, from the place after its first quote.
#[tactic(auto, using(crate::proofs::PlaceLemmas::first_character), unfolding(crate::specs::Scanner::string_body))]
pub(crate) fn string_body(
    alloc: Global,
    text: &[char],
    quote: char,
    at: usize,
) -> Result<Option<ScannedString>, AllocError>
    requires { at ≤ length text.now }
    ensures bound { IfOk result (λ o. IfSome o (λ q. q.next ≤ length text.now)) }
    ensures reads { IfOk result (λ o. spec.string_body (length text.now) quote [] (drop at text.now) ≡ scanned_string_at text.now o) }
{
    let mut value = Vec::new(alloc);
    let mut i = at;
    for _turn in 0..text.len() {
        if i == text.len() {
            return Ok(None);
        }
        if text[i] == quote {
            return Ok(Some(ScannedString { value, next: i + 1 }));
        }
        let Some(e) = string_character(text, i) else {
            return Ok(None);
        };
        push_value(&mut value, e.value)?;
        i = e.next;
    }
    Ok(None)
}
