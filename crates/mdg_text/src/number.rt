//! Numeric literals, 7.8.3. Each function answers the place after.

ghost use Rattle.std.specs.Prelude.{◌≡◌, ◌≤◌, ◌<◌, ◌+◌, ◌&&◌, ◌==◌, slice_index, length, drop, IfSome};
ghost use Rattle.mdg_text.specs.Characters.{starts};
ghost use Rattle.mdg_text.specs.Characters as character;
ghost use Rattle.mdg_text.specs.Scanner as spec;
ghost use Rattle.mdg_text.specs.Places.{rest_at};

use crate::characters::{
    is_digit, is_exponent_indicator, is_hex_digit, is_hex_indicator, is_sign, is_start,
};

#[tactic(auto, using(crate::proofs::PlaceLemmas::skips))]
fn after_digits(text: &[char], at: usize) -> usize
    requires { at ≤ length text.now }
    ensures from { at ≤ result }
    ensures bound { result ≤ length text.now }
    ensures rest { spec.skip character.is_digit (drop at text.now) ≡ drop result text.now }
{
    let mut i = at;
    while i < text.len() {
        if !is_digit(text[i]) {
            return i;
        }
        i += 1;
    }
    i
}

#[tactic(auto, using(crate::proofs::PlaceLemmas::skips))]
fn after_hex_digits(text: &[char], at: usize) -> usize
    requires { at ≤ length text.now }
    ensures from { at ≤ result }
    ensures bound { result ≤ length text.now }
    ensures rest { spec.skip character.is_hex_digit (drop at text.now) ≡ drop result text.now }
{
    let mut i = at;
    while i < text.len() {
        if !is_hex_digit(text[i]) {
            return i;
        }
        i += 1;
    }
    i
}

pub(crate) fn starts_digit(text: &[char], at: usize) -> bool
    requires { at ≤ length text.now }
    ensures { result ≡ starts character.is_digit (drop at text.now) }
{
    if at == text.len() {
        return false;
    }
    is_digit(text[at])
}

fn starts_hex_digit(text: &[char], at: usize) -> bool
    requires { at ≤ length text.now }
    ensures { result ≡ starts character.is_hex_digit (drop at text.now) }
{
    if at == text.len() {
        return false;
    }
    is_hex_digit(text[at])
}

fn starts_hex_indicator(text: &[char], at: usize) -> bool
    requires { at ≤ length text.now }
    ensures { result ≡ starts character.is_hex_indicator (drop at text.now) }
{
    if at == text.len() {
        return false;
    }
    is_hex_indicator(text[at])
}

fn starts_name(text: &[char], at: usize) -> bool
    requires { at ≤ length text.now }
    ensures { result ≡ starts character.is_start (drop at text.now) }
{
    if at == text.len() {
        return false;
    }
    is_start(text[at])
}

fn starts_dot(text: &[char], at: usize) -> bool
    requires { at ≤ length text.now }
    ensures { result ≡ starts (λ c. c == 46) (drop at text.now) }
{
    if at == text.len() {
        return false;
    }
    text[at] == '.'
}

/// Whether what stands there may follow a numeric literal, one of decimal digits alone or another.
#[tactic(auto, unfolding(crate::specs::Scanner::may_follow))]
fn may_follow(text: &[char], plain: bool, at: usize) -> bool
    requires { at ≤ length text.now }
    ensures { result ≡ spec.may_follow plain (drop at text.now) }
{
    !starts_digit(text, at) && (!starts_name(text, at) && !(plain && starts_dot(text, at)))
}

#[tactic(auto, unfolding(crate::specs::Scanner::checked))]
fn checked(text: &[char], plain: bool, at: usize) -> Option<usize>
    requires { at ≤ length text.now }
    ensures from { IfSome result (λ i. at ≤ i) }
    ensures bound { IfSome result (λ i. i ≤ length text.now) }
    ensures rest { spec.checked plain (drop at text.now) ≡ rest_at text.now result }
{
    if may_follow(text, plain, at) {
        Some(at)
    } else {
        None
    }
}

#[tactic(auto, using(crate::proofs::PlaceLemmas::first_character), unfolding(crate::specs::Scanner::integer))]
fn integer(text: &[char], at: usize) -> Option<usize>
    requires { at ≤ length text.now }
    ensures from { IfSome result (λ i. at ≤ i) }
    ensures bound { IfSome result (λ i. i ≤ length text.now) }
    ensures rest { spec.integer (drop at text.now) ≡ rest_at text.now result }
{
    if at == text.len() {
        return None;
    }
    if text[at] == '0' {
        return Some(at + 1);
    }
    if is_digit(text[at]) {
        return Some(after_digits(text, at + 1));
    }
    None
}

#[tactic(auto, unfolding(crate::specs::Scanner::power))]
fn power(text: &[char], at: usize) -> Option<usize>
    requires { at ≤ length text.now }
    ensures from { IfSome result (λ i. at ≤ i) }
    ensures bound { IfSome result (λ i. i ≤ length text.now) }
    ensures rest { spec.power (drop at text.now) ≡ rest_at text.now result }
{
    if starts_digit(text, at) {
        return checked(text, false, after_digits(text, at));
    }
    None
}

#[tactic(auto, using(crate::proofs::PlaceLemmas::first_character), unfolding(crate::specs::Scanner::signed_power))]
fn signed_power(text: &[char], at: usize) -> Option<usize>
    requires { at ≤ length text.now }
    ensures from { IfSome result (λ i. at ≤ i) }
    ensures bound { IfSome result (λ i. i ≤ length text.now) }
    ensures rest { spec.signed_power (drop at text.now) ≡ rest_at text.now result }
{
    if at == text.len() {
        return None;
    }
    if is_sign(text[at]) {
        return power(text, at + 1);
    }
    power(text, at)
}

/// After an exponent, if there is one.
#[tactic(auto, using(crate::proofs::PlaceLemmas::first_character), unfolding(crate::specs::Scanner::exponent))]
fn exponent(text: &[char], plain: bool, at: usize) -> Option<usize>
    requires { at ≤ length text.now }
    ensures from { IfSome result (λ i. at ≤ i) }
    ensures bound { IfSome result (λ i. i ≤ length text.now) }
    ensures rest { spec.exponent plain (drop at text.now) ≡ rest_at text.now result }
{
    if at == text.len() {
        return checked(text, plain, at);
    }
    if is_exponent_indicator(text[at]) {
        return signed_power(text, at + 1);
    }
    checked(text, plain, at)
}

#[tactic(auto, using(crate::proofs::PlaceLemmas::first_character), unfolding(crate::specs::Scanner::fraction))]
fn fraction(text: &[char], at: usize) -> Option<usize>
    requires { at ≤ length text.now }
    ensures from { IfSome result (λ i. at ≤ i) }
    ensures bound { IfSome result (λ i. i ≤ length text.now) }
    ensures rest { spec.fraction (drop at text.now) ≡ rest_at text.now result }
{
    if at == text.len() {
        return checked(text, true, at);
    }
    if text[at] == '.' {
        return exponent(text, false, after_digits(text, at + 1));
    }
    exponent(text, true, at)
}

#[tactic(auto, unfolding(crate::specs::Scanner::hexadecimal))]
fn hexadecimal(text: &[char], at: usize) -> Option<usize>
    requires { at ≤ length text.now }
    ensures from { IfSome result (λ i. at ≤ i) }
    ensures bound { IfSome result (λ i. i ≤ length text.now) }
    ensures rest { spec.hexadecimal (drop at text.now) ≡ rest_at text.now result }
{
    if starts_hex_digit(text, at) {
        return checked(text, false, after_hex_digits(text, at));
    }
    None
}

#[tactic(auto, unfolding(crate::specs::Scanner::decimal))]
fn decimal(text: &[char], at: usize) -> Option<usize>
    requires { at ≤ length text.now }
    ensures from { IfSome result (λ i. at ≤ i) }
    ensures bound { IfSome result (λ i. i ≤ length text.now) }
    ensures rest { spec.decimal (drop at text.now) ≡ rest_at text.now result }
{
    let next = integer(text, at)?;
    fraction(text, next)
}

/// After a numeric literal that what follows may follow.
#[tactic(auto, using(crate::proofs::PlaceLemmas::first_character), unfolding(crate::specs::Scanner::number))]
pub(crate) fn number(text: &[char], at: usize) -> Option<usize>
    requires { at ≤ length text.now }
    ensures from { IfSome result (λ i. at ≤ i) }
    ensures bound { IfSome result (λ i. i ≤ length text.now) }
    ensures rest { spec.number (drop at text.now) ≡ rest_at text.now result }
{
    if at == text.len() {
        return None;
    }
    if text[at] == '.' {
        if starts_digit(text, at + 1) {
            return exponent(text, false, after_digits(text, at + 1));
        }
        return None;
    }
    if text[at] == '0' && starts_hex_indicator(text, at + 1) {
        return hexadecimal(text, at + 2);
    }
    decimal(text, at)
}
