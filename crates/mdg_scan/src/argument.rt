//! One word of the command line.
ghost use Rattle.std.specs.Prelude.{◌≡◌, ◌<◌, List, ℕ, IfOk};
ghost use Rattle.mdg_scan.specs.CommandLine as defined;

use mdg_base::{NoMemory, Text};
use std::alloc::Global;

/// An option with its value, a flag, or a word that is no option.
#[derive(Debug, Drop)]
pub enum Argument {
    Workers(u32),
    Json,
    Profile(Text),
    Plain(Text),
}

/// An option that has a value.
#[derive(Clone, Copy, Debug, PartialEq, Eq)]
pub enum Valued {
    Workers,
    Profile,
}

/// What one more word makes.
#[derive(Debug, Drop)]
pub enum Taken {
    Whole(Argument),

    /// The option's value is the next word.
    Open(Valued),
    Wrong,
}

/// What is given, each at most once.
#[derive(Debug, Drop)]
pub struct Given {
    pub workers: Option<u32>,
    pub json: bool,
    pub profile: Option<Text>,
    pub plain: Option<Text>,
}

/// The number from 1 to the limit that the text spells, without leading zeros.
#[tactic(auto, unfolding(crate::specs::CommandLine::number_up_to))]
pub fn number(alloc: Global, text: &str, limit: u32) -> Result<Option<u32>, NoMemory>
    requires { limit < 1000 }
    ensures { IfOk result (λ found. found ≡ defined.number_up_to limit text.now) }
{
    let Ok(number) = text.parse::<u32>() else {
        return Ok(None);
    };
    if number == 0 || number > limit {
        return Ok(None);
    }
    let digits = number.to_string(alloc)?;
    if digits.as_str() == text {
        Ok(Some(number))
    } else {
        Ok(None)
    }
}

// A file's name isn't empty, and doesn't begin with `-`.
fn is_value(text: &str) -> bool
    ensures { result ≡ defined.is_value text.now }
{
    match text.as_bytes() {
        [] => false,
        [first, ..] => *first != b'-',
    }
}

fn with_value(alloc: Global, option: Valued, value: &str) -> Result<Taken, NoMemory>
    ensures { IfOk result (λ taken. taken ≡ defined.with_value option value.now) }
{
    match option {
        Valued::Workers => match number(alloc, value, 64)? {
            Some(workers) => Ok(Taken::Whole(Argument::Workers(workers))),
            None => Ok(Taken::Wrong),
        },
        Valued::Profile => {
            if is_value(value) {
                Ok(Taken::Whole(Argument::Profile(Text::of(alloc, value)?)))
            } else {
                Ok(Taken::Wrong)
            }
        }
    }
}

// A word that is no option.
fn plain(alloc: Global, word: &str) -> Result<Taken, NoMemory>
    ensures { IfOk result (λ taken. taken ≡ defined.plain word.now) }
{
    if is_value(word) {
        Ok(Taken::Whole(Argument::Plain(Text::of(alloc, word)?)))
    } else {
        Ok(Taken::Wrong)
    }
}

// A word without `=`.
fn alone(alloc: Global, word: &str) -> Result<Taken, NoMemory>
    ensures { IfOk result (λ taken. taken ≡ defined.alone word.now) }
{
    if word == "--json" {
        Ok(Taken::Whole(Argument::Json))
    } else if word == "--workers" {
        Ok(Taken::Open(Valued::Workers))
    } else if word == "--profile" {
        Ok(Taken::Open(Valued::Profile))
    } else {
        plain(alloc, word)
    }
}

// A word with `=`, and what stands on its two sides.
fn joined(alloc: Global, word: &str, name: &str, value: &str) -> Result<Taken, NoMemory>
    ensures { IfOk result (λ taken. taken ≡ defined.joined word.now name.now value.now) }
{
    if name == "--workers" {
        with_value(alloc, Valued::Workers, value)
    } else if name == "--profile" {
        with_value(alloc, Valued::Profile, value)
    } else {
        plain(alloc, word)
    }
}

// A word where no value is due.
fn begun(alloc: Global, word: &str) -> Result<Taken, NoMemory>
    ensures { IfOk result (λ taken. taken ≡ defined.begun word.now) }
{
    match word.split_once('=') {
        Some((name, value)) => joined(alloc, word, name, value),
        None => alone(alloc, word),
    }
}

/// What the word is, where it may be the value of the word before it.
pub fn take_word(alloc: Global, waiting: Option<Valued>, word: &str) -> Result<Taken, NoMemory>
    ensures { IfOk result (λ taken. taken ≡ defined.take_word waiting word.now) }
{
    match waiting {
        Some(option) => with_value(alloc, option, word),
        None => begun(alloc, word),
    }
}
