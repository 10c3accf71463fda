//! The punctuators, 7.7.

ghost use Rattle.std.specs.Prelude.{◌≡◌, ◌||◌, IsTrue, ◌↔◌, Contains};
ghost use Rattle.mdg_text.specs.Punctuator as table;
ghost use Rattle.mdg_text.specs.Scanner.{is_in};

use crate::reserved_word::either;

const BRACKETS: [&[char]; 5] = [&['{'], &['}'], &['('], &[')'], &['[']];

const SEPARATORS: [&[char]; 5] = [&[']'], &['.'], &[';'], &[','], &['?']];

const SIGNS: [&[char]; 5] = [&[':'], &['<'], &['>'], &['='], &['!']];

const ARITHMETIC: [&[char]; 5] = [&['+'], &['-'], &['*'], &['/'], &['%']];

const BITWISE: [&[char]; 4] = [&['&'], &['|'], &['^'], &['~']];

const COMPARISONS: [&[char]; 4] = [&['<', '='], &['>', '='], &['=', '='], &['!', '=']];

const SHIFTS_AND_UPDATES: [&[char]; 4] = [&['+', '+'], &['-', '-'], &['<', '<'], &['>', '>']];

const CONNECTIVES: [&[char]; 2] = [&['&', '&'], &['|', '|']];

const ARITHMETIC_ASSIGNMENTS: [&[char]; 5] = [
    &['+', '='],
    &['-', '='],
    &['*', '='],
    &['/', '='],
    &['%', '='],
];

const BITWISE_ASSIGNMENTS: [&[char]; 3] = [&['&', '='], &['|', '='], &['^', '=']];

const THREE_CHARACTERS: [&[char]; 5] = [
    &['=', '=', '='],
    &['!', '=', '='],
    &['>', '>', '>'],
    &['<', '<', '='],
    &['>', '>', '='],
];

const FOUR_CHARACTERS: [&[char]; 1] = [&['>', '>', '>', '=']];

fn is_bracket(text: &[char]) -> bool
    ensures { IsTrue result ↔ Contains table.brackets text.now }
{
    BRACKETS.contains(&text)
}

fn is_separator(text: &[char]) -> bool
    ensures { IsTrue result ↔ Contains table.separators text.now }
{
    SEPARATORS.contains(&text)
}

fn is_sign(text: &[char]) -> bool
    ensures { IsTrue result ↔ Contains table.signs text.now }
{
    SIGNS.contains(&text)
}

fn is_arithmetic(text: &[char]) -> bool
    ensures { IsTrue result ↔ Contains table.arithmetic text.now }
{
    ARITHMETIC.contains(&text)
}

fn is_bitwise(text: &[char]) -> bool
    ensures { IsTrue result ↔ Contains table.bitwise text.now }
{
    BITWISE.contains(&text)
}

fn is_comparison(text: &[char]) -> bool
    ensures { IsTrue result ↔ Contains table.comparisons text.now }
{
    COMPARISONS.contains(&text)
}

fn is_shift_or_update(text: &[char]) -> bool
    ensures { IsTrue result ↔ Contains table.shifts_and_updates text.now }
{
    SHIFTS_AND_UPDATES.contains(&text)
}

fn is_connective(text: &[char]) -> bool
    ensures { IsTrue result ↔ Contains table.connectives text.now }
{
    CONNECTIVES.contains(&text)
}

fn is_arithmetic_assignment(text: &[char]) -> bool
    ensures { IsTrue result ↔ Contains table.arithmetic_assignments text.now }
{
    ARITHMETIC_ASSIGNMENTS.contains(&text)
}

fn is_bitwise_assignment(text: &[char]) -> bool
    ensures { IsTrue result ↔ Contains table.bitwise_assignments text.now }
{
    BITWISE_ASSIGNMENTS.contains(&text)
}

fn has_three(text: &[char]) -> bool
    ensures { IsTrue result ↔ Contains table.three_characters text.now }
{
    THREE_CHARACTERS.contains(&text)
}

fn has_four(text: &[char]) -> bool
    ensures { IsTrue result ↔ Contains table.four_characters text.now }
{
    FOUR_CHARACTERS.contains(&text)
}

fn has_one(text: &[char]) -> bool
    ensures { result ≡ is_in table.one_character text.now }
{
    let brackets = is_bracket(text);
    let separators = either(brackets, is_separator(text));
    let signs = either(separators, is_sign(text));
    let arithmetic = either(signs, is_arithmetic(text));
    either(arithmetic, is_bitwise(text))
}

fn has_two(text: &[char]) -> bool
    ensures { result ≡ is_in table.two_characters text.now }
{
    let comparisons = is_comparison(text);
    let shifts_and_updates = either(comparisons, is_shift_or_update(text));
    let connectives = either(shifts_and_updates, is_connective(text));
    let arithmetic = either(connectives, is_arithmetic_assignment(text));
    either(arithmetic, is_bitwise_assignment(text))
}

/// Whether the characters are one of the punctuators.
pub(crate) fn is_punctuator(text: &[char]) -> bool
    ensures { result ≡ is_in table.punctuators text.now }
{
    match text.len() {
        1 => has_one(text),
        2 => has_two(text),
        3 => has_three(text),
        4 => has_four(text),
        _ => false,
    }
}
