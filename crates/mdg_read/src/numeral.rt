//! The numerals that may be keys of an object (11.1.5).

ghost use Rattle.std.specs.Prelude.{◌≡◌, ◌≢◌, ◌<◌, ◌+◌, ◌-◌, true, length, map, IfOk, IfSome};
ghost use Rattle.mdg_read.specs.Numeral as numeral;

fn are_digits(text: &[u8]) -> bool
    ensures { result ≡ numeral.are_digits text.now }
{
    for c in text {
        if *c < 48 || *c > 57 {
            return false;
        }
    }
    true
}

/// Whether it is `0`, or a digit from 1 to 9 and then at most 14 digits.
pub fn is_plain(text: &[u8]) -> bool
    ensures { result ≡ numeral.is_plain text.now }
{
    match text {
        [] => false,
        [first, rest @ ..] => {
            if *first == 48 && rest.len() == 0 {
                return true;
            }
            *first >= 49 && *first <= 57 && are_digits(rest) && rest.len() <= 14
        }
    }
}
