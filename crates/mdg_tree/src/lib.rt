//! The tree of a file of strict ECMAScript 5.1: one variant for each form of its grammar.
//!
//! The numbers beside the forms are sections of ECMA-262, edition 5.1.
#![tactic(auto)]

mod duplicate;
mod measure;
mod operator;
#[cfg(test)]
mod tests;
mod tree;
mod view;

pub use duplicate::copy;
pub use measure::height;
pub use operator::{AssignOperator, BinaryOperator, Step, UnaryOperator};
pub use tree::{At, Declaration, Expr, FileTree, Function, Goal, Init, Key, Property, Stmt};
pub use view::{key_name, name_of, string_of};
