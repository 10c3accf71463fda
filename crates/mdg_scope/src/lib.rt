//! Bindings: what each name of a file means, and which rules of names, `require`, `new` and jumps a
//! file violates.
//!
//! The numbers in parentheses are sections of ECMA-262, edition 5.1.
#![tactic(auto)]

mod binding;
mod bound;
mod collector;
mod function;
mod laws;
mod names;
mod occurrence;
mod refusal;
mod require_target;
mod required;
mod resolution;
mod violation;

pub use binding::bind;
pub use bound::{Bound, BoundFunction, Goal, Require};
pub use laws::{law_answers, law_order};
pub use names::Names;
pub use refusal::ScopeRefusal;
pub use resolution::{Resolution, free_resolution, globals, is_literal};
