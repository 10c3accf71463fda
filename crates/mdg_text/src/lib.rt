//! The tokens of strict ECMAScript 5.1, section 7 of ECMA-262 5.1.
#![tactic(auto)]

mod characters;
mod cursor;
mod laws;
mod lex;
mod lexeme;
mod lines;
mod number;
mod punctuator;
mod reserved_word;
mod string_literal;
mod token;
mod trivia;

pub use laws::{law_answers, law_order, law_tokens};
pub use lex::tokens;
pub use lines::line_of;
pub use token::{TextFault, Token, TokenKind};
