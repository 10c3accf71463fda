//! Tests of characters.

ghost use Rattle.std.specs.Prelude.{◌≡◌, ◌<◌, IsTrue};
ghost use Rattle.mdg_text.specs.Characters as spec;

#[tactic(auto, unfolding(crate::specs::Characters::is_separator, crate::specs::Characters::within))]
fn is_separator(c: char) -> bool
    ensures { result ≡ spec.is_separator c }
{
    c == '\u{1680}'
        || ('\u{2000}' <= c && c <= '\u{200a}')
        || c == '\u{202f}'
        || c == '\u{205f}'
        || c == '\u{3000}'
}

/// White space, 7.2.
#[tactic(auto, unfolding(crate::specs::Characters::is_space))]
pub(crate) fn is_space(c: char) -> bool
    ensures { result ≡ spec.is_space c }
{
    let is_separator = is_separator(c);
    c == '\t'
        || c == '\u{b}'
        || c == '\u{c}'
        || c == ' '
        || c == '\u{a0}'
        || c == '\u{feff}'
        || is_separator
}

/// A line end, 7.3.
#[tactic(auto, unfolding(crate::specs::Characters::is_line_end))]
pub(crate) fn is_line_end(c: char) -> bool
    ensures { result ≡ spec.is_line_end c }
{
    c == '\n' || c == '\r' || c == '\u{2028}' || c == '\u{2029}'
}

#[tactic(auto, unfolding(crate::specs::Characters::is_digit, crate::specs::Characters::within))]
pub(crate) fn is_digit(c: char) -> bool
    ensures { result ≡ spec.is_digit c }
{
    '0' <= c && c <= '9'
}

#[tactic(auto, unfolding(crate::specs::Characters::is_hex_digit, crate::specs::Characters::within))]
pub(crate) fn is_hex_digit(c: char) -> bool
    ensures { result ≡ spec.is_hex_digit c }
{
    let is_digit = is_digit(c);
    is_digit || ('A' <= c && c <= 'F') || ('a' <= c && c <= 'f')
}

/// What a hexadecimal digit counts for.
#[tactic(auto, unfolding(crate::specs::Characters::is_hex_digit, crate::specs::Characters::is_digit, crate::specs::Characters::within, crate::specs::Characters::hex_value))]
pub(crate) fn hex_value(c: char) -> u32
    requires { IsTrue (spec.is_hex_digit c) }
    ensures value { result ≡ spec.hex_value c }
    ensures small { result < 16 }
{
    let code = c as u32;
    if code < 58 {
        code - 48
    } else if code < 71 {
        code - 55
    } else {
        code - 87
    }
}

/// Whether a name may begin so, 7.6.
#[tactic(auto, unfolding(crate::specs::Characters::is_start))]
pub(crate) fn is_start(c: char) -> bool
    ensures { result ≡ spec.is_start c }
{
    unicode_ident::is_xid_start(c) || c == '$' || c == '_'
}

/// Whether a name may go on so, 7.6.
#[tactic(auto, unfolding(crate::specs::Characters::is_part))]
pub(crate) fn is_part(c: char) -> bool
    ensures { result ≡ spec.is_part c }
{
    unicode_ident::is_xid_continue(c) || c == '$' || c == '\u{200c}' || c == '\u{200d}'
}

#[tactic(auto, unfolding(crate::specs::Characters::is_quote))]
pub(crate) fn is_quote(c: char) -> bool
    ensures { result ≡ spec.is_quote c }
{
    c == '"' || c == '\''
}

#[tactic(auto, unfolding(crate::specs::Characters::is_exponent_indicator))]
pub(crate) fn is_exponent_indicator(c: char) -> bool
    ensures { result ≡ spec.is_exponent_indicator c }
{
    c == 'e' || c == 'E'
}

#[tactic(auto, unfolding(crate::specs::Characters::is_sign))]
pub(crate) fn is_sign(c: char) -> bool
    ensures { result ≡ spec.is_sign c }
{
    c == '+' || c == '-'
}

#[tactic(auto, unfolding(crate::specs::Characters::is_hex_indicator))]
pub(crate) fn is_hex_indicator(c: char) -> bool
    ensures { result ≡ spec.is_hex_indicator c }
{
    c == 'x' || c == 'X'
}

/// Whether a unit of UTF-16 is the first of a pair.
#[tactic(auto, unfolding(crate::specs::Characters::is_high, crate::specs::Characters::within))]
pub(crate) fn is_high(unit: u32) -> bool
    ensures { result ≡ spec.is_high unit }
{
    0xD800 <= unit && unit <= 0xDBFF
}

/// Whether a unit of UTF-16 is the second of a pair.
#[tactic(auto, unfolding(crate::specs::Characters::is_low, crate::specs::Characters::within))]
pub(crate) fn is_low(unit: u32) -> bool
    ensures { result ≡ spec.is_low unit }
{
    0xDC00 <= unit && unit <= 0xDFFF
}
