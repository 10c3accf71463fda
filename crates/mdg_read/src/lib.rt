//! The grammar of strict ECMAScript 5.1: which tree the tokens of a file spell, at most one.
//!
//! The numbers in parentheses are sections of ECMA-262, edition 5.1.
#![tactic(auto)]

mod array;
mod binary;
mod declaration;
mod excluded;
mod expression;
mod file;
mod function;
mod iteration;
mod keyword;
mod laws;
mod lookahead;
mod member;
mod new;
mod numeral;
mod object;
mod parsed;
mod parser;
mod primary;
mod production;
mod punctuator;
mod reader;
mod refusal;
mod semicolon;
mod sequence;
mod statement;
mod target;
mod terminal;
mod terminals;
mod token_class;
mod unary;

pub use file::read_file;
pub use laws::{law_answers, law_order, law_parser, law_tree};
pub use refusal::ReadRefusal;
