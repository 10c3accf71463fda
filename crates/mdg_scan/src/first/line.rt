//! Reads the lines of the first form.
ghost use Rattle.std.specs.Prelude.{◌≡◌, ◌≢◌, ◌<◌, ◌∷◌, ◌++◌, ℕ, List, MatchOption, length};
ghost use Rattle.std.specs.Option.{option_copied};
ghost use Rattle.std.specs.declared.option.Option.{Option};
ghost use Rattle.mdg_scan.specs.FormLines.{EachIs, IsCall, IsEnding, IsFunctionLine, Stops, in_class, is_lower};
ghost use Rattle.mdg_scan.specs.Lines.{lines_of};

use super::name::is_free;

/// The first line, and what follows it.
pub fn next_line(bytes: &[u8]) -> (&[u8], &[u8])
    requires { 0 < length bytes.now }
    ensures line { lines_of bytes.now ≡ result.0.now ∷ lines_of result.1.now }
    ensures shorter { length result.1.now < length bytes.now }
{
    for (at, byte) in bytes.iter().enumerate() {
        if *byte == b'\n' {
            let (_, rest) = bytes.split_at(at + 1);
            return (&bytes[..at], rest);
        }
    }
    (bytes, &[])
}

/// Which bytes stand in a name, and which in a text.
#[derive(Clone, Copy, Debug, PartialEq, Eq)]
pub enum Class {
    /// Lower-case letters.
    Lower,

    /// Letters, digits and spaces.
    Plain,
}

fn is_lower(byte: u8) -> bool
    ensures { result ≡ is_lower byte }
{
    97 <= byte && byte <= 122
}

fn is_in(class: Class, byte: u8) -> bool
    ensures { result ≡ in_class class byte }
{
    match class {
        Class::Lower => is_lower(byte),
        Class::Plain => {
            is_lower(byte) || (65 <= byte && byte <= 90) || (48 <= byte && byte <= 57) || byte == 32
        }
    }
}

/// What follows these first bytes.
pub fn after<'a>(bytes: &'a [u8], front: &[u8]) -> Option<&'a [u8]>
    ensures { MatchOption result ((rest : List ℕ) → bytes.now ≢ front.now ++ rest) (λ rest. bytes.now ≡ front.now ++ rest.now) }
{
    bytes.strip_prefix(front)
}

/// What stands before these last bytes.
pub fn before<'a>(bytes: &'a [u8], back: &[u8]) -> Option<&'a [u8]>
    ensures { MatchOption result ((front : List ℕ) → bytes.now ≢ front ++ back.now) (λ front. bytes.now ≡ front.now ++ back.now) }
{
    bytes.strip_suffix(back)
}

// The bytes of the class at the front, and the rest.
fn cut(class: Class, bytes: &[u8]) -> (&[u8], &[u8])
    ensures parts { bytes.now ≡ result.0.now ++ result.1.now }
    ensures pass { EachIs (in_class class) result.0.now }
    ensures stop { Stops (in_class class) result.1.now }
{
    for (at, byte) in bytes.iter().enumerate() {
        if !is_in(class, *byte) {
            return bytes.split_at(at);
        }
    }
    (bytes, &[])
}

// The text that is added to the parameter, if one is.
fn read_ending(bytes: &[u8]) -> Option<Option<&[u8]>>
    ensures { MatchOption result ((text : Option (List ℕ)) → IsEnding bytes.now text → ⊥) (λ text. IsEnding bytes.now (option_copied text)) }
{
    if bytes == b"); }".as_slice() {
        return Some(None);
    }
    let rest = after(bytes, b" + '")?;
    let (text, end) = cut(Class::Plain, rest);
    if end == b"'); }".as_slice() {
        Some(Some(text))
    } else {
        None
    }
}

// The argument's name and the text that is added to it.
fn read_call(bytes: &[u8]) -> Option<(&[u8], Option<&[u8]>)>
    ensures { MatchOption result ((parameter : List ℕ) (text : Option (List ℕ)) → IsCall bytes.now parameter text → ⊥)
        (λ call. IsCall bytes.now call.0.now (option_copied call.1)) }
{
    let rest = after(bytes, b") { eval(")?;
    let (parameter, tail) = cut(Class::Lower, rest);
    let text = read_ending(tail)?;
    Some((parameter, text))
}

/// The parts of a line that declares a function.
#[derive(Clone, Copy, Debug)]
pub struct FunctionLine<'a> {
    pub name: &'a [u8],
    pub parameter: &'a [u8],

    /// What is added to the parameter, if anything is.
    pub text: Option<&'a [u8]>,
}

/// Reads a line that declares a function.
pub fn read_function_line<'a>(line: &'a [u8]) -> Option<FunctionLine<'a>>
    ensures { MatchOption result ((name parameter : List ℕ) (text : Option (List ℕ)) → IsFunctionLine line.now name parameter text → ⊥)
        (λ found. IsFunctionLine line.now found.name.now found.parameter.now (option_copied found.text)) }
{
    let rest = after(line, b"function ")?;
    let (name, rest) = cut(Class::Lower, rest);
    let rest = after(rest, b"(")?;
    let (parameter, rest) = cut(Class::Lower, rest);
    let (argument, text) = read_call(rest)?;
    if argument != parameter {
        return None;
    }
    if !is_free(name) {
        return None;
    }
    if !is_free(parameter) {
        return None;
    }
    Some(FunctionLine {
        name,
        parameter,
        text,
    })
}
