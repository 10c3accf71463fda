//! What the parser answers.

use mdg_base::Text;

/// What was read at a place: its tree, that tree's height, and the place after it.
#[derive(Drop)]
pub struct Parsed<T> {
    pub tree: T,
    pub height: u32,
    pub next: usize,
}

/// The parameters of a function with their offsets, and the place after them.
#[derive(Drop)]
pub struct Parameters {
    pub names: mdg_base::Items<Text>,
    pub offsets: mdg_base::Items<u32>,
    pub next: usize,
}
