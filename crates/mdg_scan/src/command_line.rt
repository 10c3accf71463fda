//! The words of the command line.
ghost use Rattle.std.specs.Prelude.{◌≡◌, IfOk, None};
ghost use Rattle.mdg_scan.specs.CommandLine as defined;
ghost use Rattle.mdg_scan.specs.CommandLine.{Answers, AreArguments, IsGiven, command_of, arguments_of, texts_of};

use crate::argument::{Argument, Given, Taken, Valued, number, take_word};
use mdg_base::{Items, NoMemory, Text};
use std::alloc::Global;
use thiserror::Error;

/// What the words ask for.
#[derive(Debug, Drop)]
pub enum Command {
    /// A report on the package in the folder.
    Scan {
        workers: u32,
        json: bool,
        profile: Option<Text>,
    },

    /// The events of the run that a file tells.
    Replay {
        file: Text,
    },

    /// A report on the package that is made with this number.
    Sample {
        n: u32,
        workers: u32,
    },
}

/// Why words ask for nothing.
#[derive(Clone, Copy, Debug, PartialEq, Eq, Error)]
pub enum WordsRefusal {
    /// The words are out of form.
    #[error("wrong use")]
    Usage,

    /// Memory was refused.
    #[error("out of memory")]
    NoMemory,
}

impl From<NoMemory> for WordsRefusal {
    ghost use Rattle.std.specs.Prelude.{◌≡◌};
    ghost use Rattle.mdg_scan.specs.declared.command_line.WordsRefusal.TheVariants as refusal;

    ghost from_gives = { λ _ e. e ≡ refusal.NoMemory };

    fn from(_: NoMemory) -> WordsRefusal {
        WordsRefusal::NoMemory
    }
}

/// What the words of the command line ask for, without the program's name.
///
/// They are in form where they are the command's word and then, in any order, each of its options at most once and,
/// for `replay` and `sample`, its one word. An option's value is the next word or what stands after `=`. A number
/// has no leading zero and lies from 1 to 64 for workers, from 1 to 200 for a sample. No file's name is empty or
/// begins with `-`. Without `--workers` there are 4.
#[tactic(auto, unfolding(crate::specs::CommandLine::command_of))]
pub fn read_words(alloc: Global, words: &[String]) -> Result<Command, WordsRefusal>
    ensures { Answers (command_of (texts_of words.now)) result }
{
    let Some((word, rest)) = words.split_first() else {
        return Err(WordsRefusal::Usage);
    };
    let arguments = arguments(alloc, rest)?;
    let given = given(alloc, arguments.as_slice())?;
    named(alloc, word.as_str(), given)
}

// What the words after the command's are, in their order.
fn arguments(alloc: Global, words: &[String]) -> Result<Items<Argument>, WordsRefusal>
    ensures { AreArguments (arguments_of None (texts_of words.now)) result }
{
    let mut arguments = Items::create(alloc);
    let mut waiting = None;
    for word in words {
        match take_word(alloc, waiting, word.as_str())? {
            Taken::Whole(argument) => {
                arguments.push(argument)?;
                waiting = None;
            }
            Taken::Open(option) => waiting = Some(option),
            Taken::Wrong => return Err(WordsRefusal::Usage),
        }
    }
    match waiting {
        Some(_) => Err(WordsRefusal::Usage),
        None => Ok(arguments),
    }
}

fn is_given(given: &Given, argument: &Argument) -> bool
    ensures { result ≡ defined.is_given given.now argument.now }
{
    match argument {
        Argument::Workers(_) => given.workers.is_some(),
        Argument::Json => given.json,
        Argument::Profile(_) => given.profile.is_some(),
        Argument::Plain(_) => given.plain.is_some(),
    }
}

fn with_argument(alloc: Global, given: Given, argument: &Argument) -> Result<Given, NoMemory>
    ensures { IfOk result (λ made. made ≡ defined.with_argument given argument.now) }
{
    let mut made = given;
    match argument {
        Argument::Workers(workers) => made.workers = Some(*workers),
        Argument::Json => made.json = true,
        Argument::Profile(file) => made.profile = Some(Text::of(alloc, file.as_str())?),
        Argument::Plain(word) => made.plain = Some(Text::of(alloc, word.as_str())?),
    }
    Ok(made)
}

// What the arguments give, where no two are the same.
fn given(alloc: Global, arguments: &[Argument]) -> Result<Given, WordsRefusal>
    ensures { IsGiven (defined.given arguments.now) result }
{
    let mut given = Given {
        workers: None,
        json: false,
        profile: None,
        plain: None,
    };
    for argument in arguments {
        if is_given(&given, argument) {
            return Err(WordsRefusal::Usage);
        }
        given = with_argument(alloc, given, argument)?;
    }
    Ok(given)
}

// Four workers, where no number is given.
fn or_four(workers: Option<u32>) -> u32
    ensures { result ≡ defined.or_four workers }
{
    workers.unwrap_or(4)
}

fn scan(given: Given) -> Result<Command, WordsRefusal>
    ensures { Answers (defined.scan given) result }
{
    let Given {
        workers,
        json,
        profile,
        plain,
    } = given;
    match plain {
        Some(_) => Err(WordsRefusal::Usage),
        None => Ok(Command::Scan {
            workers: or_four(workers),
            json,
            profile,
        }),
    }
}

fn replay(given: Given) -> Result<Command, WordsRefusal>
    ensures { Answers (defined.replay given) result }
{
    let Given {
        workers,
        json,
        profile,
        plain,
    } = given;
    if workers.is_some() || json || profile.is_some() {
        return Err(WordsRefusal::Usage);
    }
    match plain {
        Some(file) => Ok(Command::Replay { file }),
        None => Err(WordsRefusal::Usage),
    }
}

fn sample(alloc: Global, given: Given) -> Result<Command, WordsRefusal>
    ensures { Answers (defined.sample given) result }
{
    let Given {
        workers,
        json,
        profile,
        plain,
    } = given;
    if json || profile.is_some() {
        return Err(WordsRefusal::Usage);
    }
    let Some(word) = plain else {
        return Err(WordsRefusal::Usage);
    };
    match number(alloc, word.as_str(), 200)? {
        Some(n) => Ok(Command::Sample {
            n,
            workers: or_four(workers),
        }),
        None => Err(WordsRefusal::Usage),
    }
}

fn named(alloc: Global, word: &str, given: Given) -> Result<Command, WordsRefusal>
    ensures { Answers (defined.named word.now given) result }
{
    if word == "scan" {
        scan(given)
    } else if word == "replay" {
        replay(given)
    } else if word == "sample" {
        sample(alloc, given)
    } else {
        Err(WordsRefusal::Usage)
    }
}
