//! The numbers of a package's nodes and rows, the rules of its graph, and what holds facts.
#![tactic(auto)]

mod blocks;
mod build;
mod count;
mod entry;
mod facts;
mod laws;
mod numbering;
mod refusal;
mod row;
mod shape;
mod sizes;
mod slot;
mod tables;
#[cfg(test)]
mod tests;

pub use entry::layout;
pub use facts::Facts;
pub use laws::{law_bits, law_graph, law_numbers, law_rules};
pub use numbering::Layout;
pub use refusal::SiteRefusal;
pub use row::{Fact, Row, outlives};
pub use shape::{Shape, first_of, has_known, second_of, shape_of};
