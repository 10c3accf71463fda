//! The top call: from the words and a folder to the text that is written and the status.
#![tactic(auto)]

mod argument;
mod command;
mod command_line;
#[cfg(test)]
mod command_line_tests;
pub mod first;
mod reply;
mod status;
#[cfg(test)]
mod tests;

pub use command::{law_one_answer, scan};
pub use command_line::{Command, WordsRefusal, read_words};
pub use reply::Reply;
pub use status::Status;
