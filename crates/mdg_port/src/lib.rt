//! The outside: a folder that is read, a sink that is written, and a gate that workers pass.
#![tactic(auto)]

mod folder;
mod gate;
mod mem_folder;
mod mem_sink;
mod sink;
#[cfg(test)]
mod tests;

pub use folder::{Fetched, Folder, FolderFault};
pub use gate::{Gate, NoGate};
pub use mem_folder::MemFolder;
pub use mem_sink::MemSink;
pub use sink::{Sink, SinkFailed, write_whole};
