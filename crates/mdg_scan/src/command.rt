ghost use Rattle.std.specs.Prelude.{◌≡◌, ◌≢◌, ◌⊎◌, ◌≤◌, ◌<◌, ◌-◌, ◌^◌, ℕ, List, Some, IfOk, IfSome};
ghost use Rattle.std.specs.Io.KnownBytes.{Keeps};
ghost use Rattle.mdg_port.specs.Causes.{Rose, Stood};
ghost use Rattle.mdg_port.specs.Held.{Held};
ghost use Rattle.mdg_port.specs.Reads.{IsWithin};
ghost use Rattle.mdg_scan.specs.Answer as answer;
ghost use Rattle.mdg_scan.specs.Answer.{IsAnswer, IsFileAnswer, IsReply, ReadResult, asks, usage_reply};
ghost use Rattle.mdg_scan.specs.CommandLine.{texts_of};
ghost use Rattle.mdg_scan.specs.Scan.{IsSomeReply, IsToldAnswer, IsWhole, IsWrittenInPart, IsWrittenWhole, ReadAll};
ghost use Rattle.mdg_scan.specs.Scan.{TellsFailedRead};
ghost use Rattle.mdg_scan.specs.declared.reply.Reply.{Reply};

use crate::command_line::{Command, WordsRefusal, read_words};
use crate::first::answer_of_file;
use crate::reply::{read_fault, refused};
use crate::{Reply, Status};
use mdg_base::{NoMemory, Text};
use mdg_port::{Fetched, Folder, FolderFault, Gate, Sink, SinkFailed, write_whole};
use std::alloc::Global;
use std::thread::Threads;

const INDEX: &str = "index.js";

// In bytes.
const INDEX_LIMIT: u64 = 4096;

/// Does what the words ask: reads the folder, and writes the whole answer to the sink.
///
/// The words leave out the program's name. The file `index.js` of the folder is read, with at most 4,096 bytes. Nothing
/// is written before the whole answer is made. `--workers` changes nothing yet; the other options and commands are
/// refused before any read. Neither `rt` nor `gate` is used yet.
pub fn scan<R: Threads + Sync, F: Folder, S: Sink, G: Gate>(
    _rt: &R,
    alloc: Global,
    words: &[String],
    folder: &mut F,
    out: &mut S,
    _gate: &G,
) -> Status
    // Where no call failed, the answer is the one that is defined, and exactly its text is written.
    ensures answered { IfSome (F.held folder.old) (λ held.
        Stood (F.faults folder.old) (F.faults folder.new) → Stood (S.faults out.old) (S.faults out.new)
        → result ≢ Status.NoMemory
        → IsWrittenWhole (IsAnswer (texts_of words.now) held) result (S.written out.old) (S.written out.new)) }

    // Each answer from `Clean` to `Usage` is the defined one, and is written whole.
    ensures whole { IsWhole result → IfSome (F.held folder.old) (λ held.
        IsWrittenWhole (IsAnswer (texts_of words.now) held) result (S.written out.old) (S.written out.new)) }

    // A failed read is told whole, with its path, which is the one that was read last.
    ensures fault { result ≡ Status.ReadFault → Rose (F.faults folder.old) (F.faults folder.new) }
    ensures fault_path { result ≡ Status.ReadFault → IfSome (F.held folder.old) (λ held.
        IsWrittenWhole (TellsFailedRead (asks (texts_of words.now) held) (F.reads folder.old) (F.reads folder.new)) result
        (S.written out.old) (S.written out.new)) }

    // Whatever the folder is: but for a failed write the reply by what its reads gave is written whole.
    ensures written { result ≢ Status.WriteFault → result ≢ Status.NoMemory
        → IsWrittenWhole (IsSomeReply (texts_of words.now) (F.faults folder.old) (F.faults folder.new)) result
        (S.written out.old) (S.written out.new) }

    // After a failed write a proper prefix of that reply is written. Where the folder tells what it holds, it is the
    // defined answer, or, only where a read failed, tells the path of that read.
    ensures write_fault { result ≡ Status.WriteFault → Rose (S.faults out.old) (S.faults out.new) }
    ensures prefix { result ≡ Status.WriteFault
        → IsWrittenInPart (IsSomeReply (texts_of words.now) (F.faults folder.old) (F.faults folder.new))
        (S.written out.old) (S.written out.new) }
    ensures told_prefix { result ≡ Status.WriteFault → IfSome (F.held folder.old) (λ held.
        IsWrittenInPart (IsAnswer (texts_of words.now) held) (S.written out.old) (S.written out.new)
        ⊎ (Rose (F.faults folder.old) (F.faults folder.new)
        × IsWrittenInPart (TellsFailedRead (asks (texts_of words.now) held) (F.reads folder.old) (F.reads folder.new))
        (S.written out.old) (S.written out.new))) }

    // Where no read failed, each path that is asked was read once.
    ensures all_read { Stood (F.faults folder.old) (F.faults folder.new) → result ≢ Status.NoMemory
        → ReadAll (texts_of words.now) (F.held folder.old) (F.reads folder.old) (F.reads folder.new) }

    // Where memory was refused, nothing is written.
    ensures memory { result ≡ Status.NoMemory → Keeps (S.written out.old) (S.written out.new) }

    // A wrong use is told only where the words are out of form, and there always but for a failed write.
    ensures usage { result ≡ Status.Usage → answer.task_by (texts_of words.now) ≡ Task.Usage }
    ensures usage_told { answer.task_by (texts_of words.now) ≡ Task.Usage → Stood (S.faults out.old) (S.faults out.new)
        → result ≢ Status.NoMemory → result ≡ Status.Usage }

    // What is not built is refused, and nothing is read for it or for words out of form.
    ensures not_built { answer.task_by (texts_of words.now) ≡ Task.NotBuilt
        → Stood (S.faults out.old) (S.faults out.new) → result ≢ Status.NoMemory → result ≡ Status.Refused }
    ensures unread { answer.task_by (texts_of words.now) ≢ Task.Scan → folder.new ≡ folder.old }
{
    let Ok(reply) = reply_to(alloc, words, folder) else {
        return Status::NoMemory;
    };
    match write_whole(out, reply.text.as_str().as_bytes()) {
        Ok(()) => reply.status,
        Err(SinkFailed) => Status::WriteFault,
    }
}

/// There is at most one answer for these words and a folder that holds this, and at most one reply for these words
/// and what the reads gave.
pub fn law_one_answer()
    ensures answer { (words : List (List ℕ)) (held : Held) (one other : Reply)
        → IsAnswer words held one → IsAnswer words held other → one ≡ other }
    ensures reply { (words : List (List ℕ)) (given : List ReadResult) (one other : Reply)
        → IsReply words given one → IsReply words given other → one ≡ other }
{}

/// What the words ask for, of what there is.
#[derive(Clone, Copy, Debug, PartialEq, Eq)]
pub enum Task {
    Scan,
    NotBuilt,
    Usage,
}

fn task_of(command: &Command) -> Task
    ensures { result ≡ answer.task_of (Some command.now) }
{
    match command {
        Command::Scan { json, profile, .. } => {
            if *json || profile.is_some() {
                Task::NotBuilt
            } else {
                Task::Scan
            }
        }
        Command::Replay { .. } => Task::NotBuilt,
        Command::Sample { .. } => Task::NotBuilt,
    }
}

#[tactic(auto, unfolding(crate::specs::Answer::task_by))]
fn task_by(alloc: Global, words: &[String]) -> Result<Task, NoMemory>
    ensures { IfOk result (λ task. task ≡ answer.task_by (texts_of words.now)) }
{
    match read_words(alloc, words) {
        Ok(command) => Ok(task_of(&command)),
        Err(WordsRefusal::Usage) => Ok(Task::Usage),
        Err(WordsRefusal::NoMemory) => Err(NoMemory),
    }
}

// What is answered for what a read of the file gave.
fn answer_of_fetched(alloc: Global, fetched: Fetched) -> Result<Reply, NoMemory>
    requires { IsWithin 4096 fetched }
    ensures { IfOk result (IsFileAnswer fetched) }
{
    match fetched {
        Fetched::Absent => refused(alloc, "NoFile index.js"),
        Fetched::TooLong => refused(alloc, "TooLong index.js"),
        Fetched::Bytes(bytes) => answer_of_file(alloc, bytes.as_slice()),
    }
}

// Reads what the command needs, and makes the whole answer before anything is written.
fn reply_to<F: Folder>(alloc: Global, words: &[String], folder: &mut F) -> Result<Reply, NoMemory>
    ensures later { F.faults folder.old ≤ F.faults folder.new }

    ensures answered { IfOk result (λ reply. reply.status ≢ Status.ReadFault
        → IsToldAnswer (texts_of words.now) (F.held folder.old) reply) }
    ensures some_reply { IfOk result (IsSomeReply (texts_of words.now) (F.faults folder.old) (F.faults folder.new)) }
    ensures all_read { IfOk result (λ reply. reply.status ≢ Status.ReadFault
        → ReadAll (texts_of words.now) (F.held folder.old) (F.reads folder.old) (F.reads folder.new)) }

    ensures usage { answer.task_by (texts_of words.now) ≡ Task.Usage → IfOk result (λ reply. reply ≡ usage_reply) }
    ensures usage_only { IfOk result (λ reply. reply.status ≡ Status.Usage → answer.task_by (texts_of words.now) ≡ Task.Usage) }

    ensures not_built { answer.task_by (texts_of words.now) ≡ Task.NotBuilt → IfOk result (λ reply. reply.status ≡ Status.Refused) }
    ensures unread { answer.task_by (texts_of words.now) ≢ Task.Scan → folder.new ≡ folder.old }

    ensures fault { IfOk result (λ reply. reply.status ≡ Status.ReadFault
        → Rose (F.faults folder.old) (F.faults folder.new)) }
    ensures failed_read { IfOk result (λ reply. reply.status ≡ Status.ReadFault → IfSome (F.held folder.old) (λ held.
        TellsFailedRead (asks (texts_of words.now) held) (F.reads folder.old) (F.reads folder.new) reply)) }

    // No other status comes from here.
    ensures not_write { IfOk result (λ reply. reply.status ≢ Status.WriteFault) }
    ensures not_memory { IfOk result (λ reply. reply.status ≢ Status.NoMemory) }
{
    match task_by(alloc, words)? {
        Task::Usage => return reply_by_usage(alloc),
        Task::NotBuilt => return refused(alloc, "NotBuilt"),
        Task::Scan => {}
    }
    match folder.read(alloc, INDEX, INDEX_LIMIT) {
        Ok(fetched) => answer_of_fetched(alloc, fetched),
        Err(FolderFault::NoMemory) => Err(NoMemory),
        Err(FolderFault::Failed) => read_fault(alloc, INDEX),
    }
}

fn reply_by_usage(alloc: Global) -> Result<Reply, NoMemory>
    ensures { IfOk result (λ reply. reply ≡ usage_reply) }
{
    let mut text = Text::of(
        alloc,
        "usage: mdg scan [--workers N] [--json] [--profile FILE]\n",
    )?;
    text.add("       mdg replay FILE\n")?;
    text.add("       mdg sample N [--workers N]\n")?;
    Ok(Reply {
        status: Status::Usage,
        text,
    })
}
