//! The names that stand for code outside the package, and what their calls do.
#![tactic(auto)]

mod built;
mod entry;
mod form;
mod listing;
mod read;
mod refusal;
#[cfg(test)]
mod tests;

pub use built::default_profile;
pub use entry::{Entry, Profile};
pub use read::{law_read_profile, read_profile};
pub use refusal::ProfileRefusal;
