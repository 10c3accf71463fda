//! One token: of the four classes the longest.

ghost use Rattle.std.specs.Prelude.{◌≡◌, ◌≤◌, ◌<◌, ◌+◌, ◌-◌, ◌&&◌, ◌==◌, slice_index, length, drop, take, IfOk, IfSome};
ghost use Rattle.std.specs.Str.{encode_utf8_all};
ghost use Rattle.mdg_text.specs.Characters as character;
ghost use Rattle.mdg_text.specs.Scanner as spec;
ghost use Rattle.mdg_text.specs.Punctuator.{punctuators};
ghost use Rattle.mdg_text.specs.Places.{found_at};

use crate::TokenKind;
use crate::characters::{is_part, is_quote, is_start};
use crate::number::number;
use crate::punctuator::is_punctuator;
use crate::reserved_word::is_reserved_word;
use crate::string_literal::string_body;
use mdg_base::{NoMemory, Text};
use std::alloc::Global;

/// The most characters of a punctuator.
const LONGEST_PUNCTUATOR: usize = 4;

/// A token that begins at a place, and the place after it.
#[derive(Debug, Drop)]
pub(crate) struct Lexeme {
    pub kind: TokenKind,
    pub value: Text,
    pub next: usize,
}

/// A text of these characters.
fn text_of(alloc: Global, characters: &[char]) -> Result<Text, NoMemory>
    ensures { IfOk result (λ t. t ≡ encode_utf8_all characters.now) }
{
    let text: String = characters.iter().copied().collect(alloc)?;
    Ok(Text::from_string(text))
}

/// The text between two places.
#[tactic(auto, using(crate::proofs::PlaceLemmas::between))]
fn spelling(alloc: Global, text: &[char], from: usize, to: usize) -> Result<Text, NoMemory>
    requires order { from ≤ to }
    requires inside { to ≤ length text.now }
    ensures { IfOk result (λ t. t ≡ encode_utf8_all (spec.before (drop from text.now) (drop to text.now))) }
{
    text_of(alloc, &text[from..to])
}

#[tactic(auto, using(crate::proofs::PlaceLemmas::skips))]
fn after_parts(text: &[char], at: usize) -> usize
    requires { at ≤ length text.now }
    ensures from { at ≤ result }
    ensures bound { result ≤ length text.now }
    ensures rest { spec.skip character.is_part (drop at text.now) ≡ drop result text.now }
{
    let mut i = at;
    while i < text.len() {
        if !is_part(text[i]) {
            return i;
        }
        i += 1;
    }
    i
}

fn kind_of(text: &str) -> TokenKind
    ensures { result ≡ spec.kind_of text.now }
{
    if is_reserved_word(text) {
        TokenKind::Word
    } else {
        TokenKind::Name
    }
}

/// A name or a reserved word.
#[tactic(auto, using(crate::proofs::PlaceLemmas::first_character), unfolding(crate::specs::Scanner::name_at))]
fn name_at(alloc: Global, text: &[char], at: usize) -> Result<Option<Lexeme>, NoMemory>
    requires { at ≤ length text.now }
    ensures bound { IfOk result (λ o. IfSome o (λ f. f.next ≤ length text.now)) }
    ensures reads { IfOk result (λ o. spec.name_at (drop at text.now) ≡ found_at text.now o) }
{
    if at == text.len() {
        return Ok(None);
    }
    if !is_start(text[at]) {
        return Ok(None);
    }
    let next = after_parts(text, at + 1);
    let value = spelling(alloc, text, at, next)?;
    let kind = kind_of(value.as_str());
    Ok(Some(Lexeme { kind, value, next }))
}

#[tactic(auto, using(crate::proofs::PlaceLemmas::first_character), unfolding(crate::specs::Scanner::number_at))]
fn number_at(alloc: Global, text: &[char], at: usize) -> Result<Option<Lexeme>, NoMemory>
    requires { at ≤ length text.now }
    ensures bound { IfOk result (λ o. IfSome o (λ f. f.next ≤ length text.now)) }
    ensures reads { IfOk result (λ o. spec.number_at (drop at text.now) ≡ found_at text.now o) }
{
    let Some(next) = number(text, at) else {
        return Ok(None);
    };
    let value = spelling(alloc, text, at, next)?;
    Ok(Some(Lexeme {
        kind: TokenKind::Numeral,
        value,
        next,
    }))
}

#[tactic(auto, using(crate::proofs::PlaceLemmas::first_character), unfolding(crate::specs::Scanner::string_at))]
fn string_at(alloc: Global, text: &[char], at: usize) -> Result<Option<Lexeme>, NoMemory>
    requires { at ≤ length text.now }
    ensures bound { IfOk result (λ o. IfSome o (λ f. f.next ≤ length text.now)) }
    ensures reads { IfOk result (λ o. spec.string_at (length text.now) (drop at text.now) ≡ found_at text.now o) }
{
    if at == text.len() {
        return Ok(None);
    }
    let quote = text[at];
    if !is_quote(quote) {
        return Ok(None);
    }
    let Some(scanned) = string_body(alloc, text, quote, at + 1)? else {
        return Ok(None);
    };
    let value = text_of(alloc, scanned.value.as_slice())?;
    Ok(Some(Lexeme {
        kind: TokenKind::Text,
        value,
        next: scanned.next,
    }))
}

#[tactic(auto, using(crate::proofs::PlaceLemmas::ranged))]
fn is_punctuator_at(text: &[char], at: usize, size: usize) -> bool
    requires { at + size ≤ length text.now }
    ensures { result ≡ spec.is_in punctuators (take size (drop at text.now)) }
{
    is_punctuator(&text[at..at + size])
}

#[tactic(auto, using(crate::proofs::PlaceLemmas::ranged))]
fn copied(alloc: Global, text: &[char], at: usize, size: usize) -> Result<Text, NoMemory>
    requires { at + size ≤ length text.now }
    ensures { IfOk result (λ t. t ≡ encode_utf8_all (take size (drop at text.now))) }
{
    text_of(alloc, &text[at..at + size])
}

/// The longest punctuator of at most `most` characters.
fn punctuator_at(
    alloc: Global,
    text: &[char],
    at: usize,
    most: usize,
) -> Result<Option<Lexeme>, NoMemory>
    requires { at ≤ length text.now }
    ensures bound { IfOk result (λ o. IfSome o (λ f. f.next ≤ length text.now)) }
    ensures reads { IfOk result (λ o. spec.punctuator_of most (drop at text.now) ≡ found_at text.now o) }
{
    if most == 0 {
        return Ok(None);
    }
    if text.len() - at < most {
        return punctuator_at(alloc, text, at, most - 1);
    }
    if !is_punctuator_at(text, at, most) {
        return punctuator_at(alloc, text, at, most - 1);
    }
    let value = copied(alloc, text, at, most)?;
    Ok(Some(Lexeme {
        kind: TokenKind::Mark,
        value,
        next: at + most,
    }))
}

#[tactic(auto, unfolding(crate::specs::Scanner::longer))]
fn longer(text: &[char], a: Option<Lexeme>, b: Option<Lexeme>) -> Option<Lexeme>
    requires left { IfSome a (λ f. f.next ≤ length text.now) }
    requires right { IfSome b (λ f. f.next ≤ length text.now) }
    ensures bound { IfSome result (λ f. f.next ≤ length text.now) }
    ensures reads { spec.longer (found_at text.now a) (found_at text.now b) ≡ found_at text.now result }
{
    let Some(x) = a else {
        return b;
    };
    let Some(y) = b else {
        return Some(x);
    };
    if y.next <= x.next { Some(x) } else { Some(y) }
}

/// The longest of the spellings that begin at the place.
#[tactic(auto, unfolding(crate::specs::Scanner::longest_at))]
fn longest_at(alloc: Global, text: &[char], at: usize) -> Result<Option<Lexeme>, NoMemory>
    requires { at ≤ length text.now }
    ensures bound { IfOk result (λ o. IfSome o (λ f. f.next ≤ length text.now)) }
    ensures reads { IfOk result (λ o. spec.longest_at (length text.now) (drop at text.now) ≡ found_at text.now o) }
{
    let name = name_at(alloc, text, at)?;
    let number = number_at(alloc, text, at)?;
    let string = string_at(alloc, text, at)?;
    let punctuator = punctuator_at(alloc, text, at, LONGEST_PUNCTUATOR)?;
    Ok(longer(
        text,
        name,
        longer(text, number, longer(text, string, punctuator)),
    ))
}

fn spells_html_comment(text: &[char], at: usize) -> bool
    requires { at + 3 < length text.now }
    ensures { result ≡ (((slice_index text.now at == 60) && (slice_index text.now (at + 1) == 33)) && ((slice_index text.now (at + 2) == 45) && (slice_index text.now (at + 2 + 1) == 45))) }
{
    (text[at] == '<' && text[at + 1] == '!') && (text[at + 2] == '-' && text[at + 3] == '-')
}

/// Whether `<!--` stands there, where engines begin a comment.
#[tactic(auto, using(crate::proofs::UnitLemmas::html_steps))]
fn begins_html_comment(text: &[char], at: usize) -> bool
    requires { at ≤ length text.now }
    ensures { result ≡ spec.begins_html_comment (drop at text.now) }
{
    if text.len() - at < 4 {
        return false;
    }
    spells_html_comment(text, at)
}

/// The token that begins at the place: the longest, and none at `<!--`.
#[tactic(auto, unfolding(crate::specs::Scanner::token_at))]
pub(crate) fn token_at(alloc: Global, text: &[char], at: usize) -> Result<Option<Lexeme>, NoMemory>
    requires { at ≤ length text.now }
    ensures bound { IfOk result (λ o. IfSome o (λ f. f.next ≤ length text.now)) }
    ensures reads { IfOk result (λ o. spec.token_at (length text.now) (drop at text.now) ≡ found_at text.now o) }
{
    if begins_html_comment(text, at) {
        return Ok(None);
    }
    longest_at(alloc, text, at)
}
