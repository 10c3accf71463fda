//! Tests that go through several crates, from the files of a package to the statements that they become, and those of
//! the large crates.
#![tactic(auto)]

#[cfg(test)]
mod bindings;
#[cfg(test)]
mod code_listing;
#[cfg(test)]
mod grammar;
#[cfg(test)]
mod lexing;
#[cfg(test)]
mod lowering;
#[cfg(test)]
mod module_object;
#[cfg(test)]
mod tree_listing;
#[cfg(test)]
mod walk;
