//! The real folder and the real output. They tell nothing of contents, and count their failures.
//! What they hand out and take is trusted: no contract can say what a file or a stream holds.
ghost use Rattle.std.specs.Prelude.{None, ℕ, ◌≡◌};
ghost use Rattle.mdg.specs.Ending.{EndsWithin};

use mdg_base::Items;
use mdg_port::{Fetched, Folder, FolderFault, Sink, SinkFailed};
use std::alloc::Global;
use std::io::Read;
use std::rt::Files;
use std::{fs, io};

/// The current directory. Symbolic links are followed.
///
/// A path is absent where no file can be: it doesn't exist, is no file, leads through something that is no folder or
/// round a loop of symbolic links, has a NUL in it, or is longer than the system's names or paths.
#[derive(Drop)]
pub struct DirFolder<'a, R: Files> {
    rt: &'a R,
    faults: u64,
}

// How a read of the real folder ended, before its failure is counted.
#[derive(Drop)]
enum Ending {
    Found(Fetched),
    Failed,
    NoMemory,
}

impl<'a, R: Files> DirFolder<'a, R> {
    /// The folder in which the program runs, with no faults yet.
    pub fn new(rt: &'a R) -> Self
        ensures { result.faults ≡ 0 }
    {
        DirFolder { rt, faults: 0 }
    }
}

// A path that couldn't be looked up or opened.
fn ending_of_path(error: &io::Error) -> Ending
    ensures { (limit : ℕ) → EndsWithin limit result }
{
    match error.kind() {
        io::ErrorKind::NotFound
        | io::ErrorKind::NotADirectory
        | io::ErrorKind::IsADirectory
        | io::ErrorKind::InvalidInput
        | io::ErrorKind::InvalidFilename
        | io::ErrorKind::FilesystemLoop => Ending::Found(Fetched::Absent),
        io::ErrorKind::OutOfMemory => Ending::NoMemory,
        _ => Ending::Failed,
    }
}

// A file that was opened, and couldn't be read.
fn ending_of_file(error: &io::Error) -> Ending
    ensures { (limit : ℕ) → EndsWithin limit result }
{
    match error.kind() {
        io::ErrorKind::OutOfMemory => Ending::NoMemory,
        _ => Ending::Failed,
    }
}

// Reads until the end or one byte past the limit.
fn read_to_limit<I: Read>(alloc: Global, input: &mut I, limit: u64) -> Ending
    ensures { EndsWithin limit result }
{
    let mut bytes: Vec<u8> = Vec::new(alloc);
    let mut buffer = [0u8; 512];
    while bytes.len() as u64 <= limit {
        match input.read(&mut buffer) {
            Ok(0) => return Ending::Found(Fetched::Bytes(Items::from_vec(bytes))),
            Ok(count) => {
                if bytes.extend_from_slice(&buffer[..count]).is_err() {
                    return Ending::NoMemory;
                }
            }
            Err(error) => return ending_of_file(&error),
        }
    }
    Ending::Found(Fetched::TooLong)
}

fn read_path<R: Files>(rt: &R, alloc: Global, path: &str, limit: u64) -> Ending
    ensures { EndsWithin limit result }
{
    match fs::metadata(rt, path) {
        Ok(metadata) => {
            if !metadata.is_file() {
                return Ending::Found(Fetched::Absent);
            }
        }
        Err(error) => return ending_of_path(&error),
    }
    match fs::open(rt, path) {
        Ok(mut file) => read_to_limit(alloc, &mut file, limit),
        Err(error) => ending_of_path(&error),
    }
}

impl<'a, R: Files> Folder for DirFolder<'a, R> {
    ghost held = { λ _. None };

    ghost reads = { λ _. 0 };

    ghost faults = { λ f. f.faults };

    fn read(&mut self, alloc: Global, path: &str, limit: u64) -> Result<Fetched, FolderFault> {
        match read_path(self.rt, alloc, path, limit) {
            Ending::Found(fetched) => Ok(fetched),
            Ending::NoMemory => Err(FolderFault::NoMemory),
            Ending::Failed => {
                self.faults = self.faults.saturating_add(1);
                Err(FolderFault::Failed)
            }
        }
    }
}

/// The standard output. A write that takes nothing is a fault.
#[derive(Drop)]
pub struct OutSink<'a, R: Print> {
    rt: &'a R,
    faults: u64,
}

impl<'a, R: Print> OutSink<'a, R> {
    /// The output of the program, with no faults yet.
    pub fn new(rt: &'a R) -> Self
        ensures { result.faults ≡ 0 }
    {
        OutSink { rt, faults: 0 }
    }
}

impl<'a, R: Print> Sink for OutSink<'a, R> {
    ghost written = { λ _. None };

    ghost faults = { λ s. s.faults };

    fn put(&mut self, bytes: &[u8]) -> Result<usize, SinkFailed> {
        match self.rt.write_some(bytes) {
            Ok(count) if count > 0 => Ok(count),
            _ => {
                self.faults = self.faults.saturating_add(1);
                Err(SinkFailed)
            }
        }
    }
}
