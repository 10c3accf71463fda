//! The walk of a package: from `package.json` to the entry, and from each file to those that it requires.
#![tactic(auto)]

mod candidates;
mod fault;
mod manifest;
mod module_resolution;
mod module_table;
mod path;
mod require_goals;
mod source;
mod walk;

pub use fault::PackFault;
pub use walk::{Package, gather, law_one_walk};
