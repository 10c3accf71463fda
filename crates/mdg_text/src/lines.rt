//! Lines of offsets.

ghost use Rattle.std.specs.Prelude.{◌≡◌, ◌≤◌, ◌<◌, ◌+◌, ◌&&◌, ◌||◌, ◌==◌, length, drop, slice_index};
ghost use Rattle.mdg_text.specs.Characters.{starts};
ghost use Rattle.mdg_text.specs.Lines as spec;

fn is_line_feed_at(bytes: &[u8], at: usize) -> bool
    requires { at ≤ length bytes.now }
    ensures { result ≡ starts (λ d. d == 10) (drop at bytes.now) }
{
    if at == bytes.len() {
        return false;
    }
    bytes[at] == b'\n'
}

fn is_last_of_separator(bytes: &[u8], at: usize) -> bool
    requires { at ≤ length bytes.now }
    ensures { result ≡ starts (λ d. (d == 0xA8) || (d == 0xA9)) (drop at bytes.now) }
{
    if at == bytes.len() {
        return false;
    }
    bytes[at] == 0xA8 || bytes[at] == 0xA9
}

/// Whether 80 A8 or 80 A9 stands there.
#[tactic(auto, using(crate::proofs::PlaceLemmas::first_character))]
fn ends_separator(bytes: &[u8], at: usize) -> bool
    requires { at ≤ length bytes.now }
    ensures { result ≡ spec.ends_separator (drop at bytes.now) }
{
    if at == bytes.len() {
        return false;
    }
    let is_last = is_last_of_separator(bytes, at + 1);
    bytes[at] == 0x80 && is_last
}

fn ends_line_at(bytes: &[u8], at: usize) -> bool
    requires { at < length bytes.now }
    ensures { result ≡ spec.ends_line_at (slice_index bytes.now at) (drop (at + 1) bytes.now) }
{
    let byte = bytes[at];
    let is_line_feed = is_line_feed_at(bytes, at + 1);
    let ends_separator = ends_separator(bytes, at + 1);
    byte == b'\n' || (byte == b'\r' && !is_line_feed) || (byte == 0xE2 && ends_separator)
}

#[tactic(auto, using(crate::proofs::LineLemmas::byte_steps))]
fn line_ends(bytes: &[u8]) -> usize
    ensures value { result ≡ spec.byte_line_ends bytes.now }
    ensures few { result ≤ length bytes.now }
{
    let mut n: usize = 0;
    let mut i: usize = 0;
    while i < bytes.len() {
        if ends_line_at(bytes, i) {
            n += 1;
        }
        i += 1;
    }
    n
}

/// The line of an offset, counted from 1: one more than the number of line ends in the bytes before it (7.3).
/// A line end is 0D 0A, or else 0D or 0A alone, or E2 80 A8 or E2 80 A9. The bytes need not be UTF-8.
pub fn line_of(bytes: &[u8], offset: u32) -> u32
    requires inside { offset ≤ length bytes.now }
    requires short { length bytes.now ≤ 1048576 }
    ensures { result ≡ spec.line_at bytes.now offset }
{
    line_ends(&bytes[..offset as usize]) as u32 + 1
}
