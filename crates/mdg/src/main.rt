//! The program: the words and the current folder in, the text and the status out.
#![tactic(auto)]

mod edge;
#[cfg(test)]
mod tests;

use edge::{DirFolder, OutSink};
use mdg_port::NoGate;
use mdg_scan::{Status, scan};
use std::alloc::{AllocError, Global};
use std::process::ExitCode;
use std::{env, io};

// The exit status where the system doesn't give its words as texts. No `Status` has this number.
const NO_WORDS: u8 = 7;

// The words after the program's name.
fn words_after_name(alloc: Global, all: env::Args) -> Result<Vec<String>, AllocError> {
    let mut words = Vec::new(alloc);
    for word in all.skip(1) {
        words.push(word)?;
    }
    Ok(words)
}

fn main(rt: HostRuntime) -> ExitCode {
    let all = match env::args(&rt) {
        Ok(all) => all,
        Err(error) if error.kind() == io::ErrorKind::OutOfMemory => {
            return ExitCode::from(Status::NoMemory.number());
        }
        Err(_) => return ExitCode::from(NO_WORDS),
    };
    let Ok(words) = words_after_name(rt.alloc(), all) else {
        return ExitCode::from(Status::NoMemory.number());
    };
    let mut folder = DirFolder::new(&rt);
    let mut out = OutSink::new(&rt);
    let status = scan(
        &rt,
        rt.alloc(),
        words.as_slice(),
        &mut folder,
        &mut out,
        &NoGate,
    );
    ExitCode::from(status.number())
}
