//! Lowering: the files of a package become short numbered statements.
//!
//! The numbers in parentheses are sections of ECMA-262, edition 5.1.
#![tactic(auto)]

mod assigned;
mod builder;
mod column;
mod draft;
mod environment;
mod expression;
mod frame_size;
mod function;
mod instruction;
mod link;
mod lookup;
mod lowering;
mod nested;
mod offsets;
mod reference;
mod refusal;
mod scope;
mod shared;
mod statement;
mod tables;

pub use lowering::lower;
pub use refusal::LowerRefusal;
