//! Globals and modules that drafts name: look-ups of their names, their numbers, and their rows.

pub mod names;
pub mod rows;
pub mod table;
