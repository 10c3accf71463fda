use crate::command_line::{Command, WordsRefusal, read_words};
use mdg_base::Text;
use std::alloc::Global;
use std::test::Fail;

fn words_of(alloc: Global, line: &str) -> Result<Vec<String>, Fail> {
    let mut words = Vec::new(alloc);
    for word in line.split(' ') {
        words.push(String::from_str(alloc, word)?)?;
    }
    Ok(words)
}

fn profile_of(profile: &Option<Text>) -> &str {
    match profile {
        Some(file) => file.as_str(),
        None => "-",
    }
}

// What a line of words asks for, in words of the test's own.
fn asked(alloc: Global, line: &str) -> Result<String, Fail> {
    match read_words(alloc, words_of(alloc, line)?.as_slice()) {
        Ok(
            Command::Scan {
                workers,
                json,
                profile,
            },
        ) => Ok(format!(in alloc; "{workers} {json} {}", profile_of(&profile))?),
        Ok(Command::Replay { file }) => Ok(format!(in alloc; "events {}", file.as_str())?),
        Ok(Command::Sample { n, workers }) => Ok(format!(in alloc; "number {n} by {workers}")?),
        Err(WordsRefusal::Usage) => Ok(format!(in alloc; "usage")?),
        Err(WordsRefusal::NoMemory) => Ok(format!(in alloc; "memory")?),
    }
}

#[test]
fn words_in_form(rt: HostRuntime) -> Result<(), Fail> {
    let rows = [
        ("scan", "4 false -"),
        ("scan --workers 7", "7 false -"),
        ("scan --workers=1", "1 false -"),
        ("scan --json", "4 true -"),
        (
            "scan --json --workers 64 --profile p.json",
            "64 true p.json",
        ),
        ("scan --profile=a=b --json", "4 true a=b"),
        ("scan --profile --json=x", "usage"),
        ("replay s.json", "events s.json"),
        ("replay a=b", "events a=b"),
        ("replay scan", "events scan"),
        ("sample 1", "number 1 by 4"),
        ("sample 200 --workers 2", "number 200 by 2"),
        ("sample --workers=64 10", "number 10 by 64"),
    ];
    for (line, wanted) in rows {
        assert_eq!(rt; asked(rt.alloc(), line)?.as_str(), wanted);
    }
    Ok(())
}

#[test]
fn words_out_of_form(rt: HostRuntime) -> Result<(), Fail> {
    let lines = [
        "",
        "help",
        "--help",
        "Scan",
        "scan ",
        "scan x",
        "scan -h",
        "scan --",
        "scan -- --json",
        "scan --help",
        "scan --json --json",
        "scan --json=",
        "scan --json=true",
        "scan --workers",
        "scan --workers=",
        "scan --workers 0",
        "scan --workers 65",
        "scan --workers 04",
        "scan --workers +4",
        "scan --workers -4",
        "scan --workers 4x",
        "scan --workers 99999999999",
        "scan --workers 1 --workers=1",
        "scan --profile",
        "scan --profile=",
        "scan --profile=-",
        "scan --profile --json",
        "scan --profile p --profile p",
        "replay",
        "replay ",
        "replay -",
        "replay --",
        "replay -- s.json",
        "replay a b",
        "replay --json a",
        "replay --workers 1 a",
        "replay --profile p a",
        "sample",
        "sample 0",
        "sample 201",
        "sample 007",
        "sample x",
        "sample 1 2",
        "sample 1 --json",
        "sample 1 --profile p",
        "sample --workers 1",
    ];
    for line in lines {
        assert_eq!(rt; asked(rt.alloc(), line)?.as_str(), "usage");
    }
    Ok(())
}
