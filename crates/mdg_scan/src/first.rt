//! The first form of a file: how it is read and lowered, the least graph of its code, and the flows in it.

mod answer;
mod code;
mod edges;
mod fact;
mod facts;
mod flow;
mod flow_report;
mod form;
mod gather;
mod growth;
#[cfg(test)]
mod growth_tests;
mod law;
mod line;
mod lowering;
mod name;
mod reach;
mod read;
mod rule;
mod table;
#[cfg(test)]
mod tests;

pub use answer::answer_of_file;
pub use code::{Code, FunctionRow, Line, SharedRow, Statement};
pub use fact::{Fact, Row};
pub use facts::Facts;
pub use flow::{Flow, flows};
pub use flow_report::report;
pub use form::{Export, Form, FormFunction, FormRefusal};
pub use growth::grow;
pub use law::{law_form, law_lines};
pub use lowering::lower;
pub use reach::{Edge, reached};
pub use read::read_form;
pub use rule::{Rule, given};
pub use table::rules_of;
