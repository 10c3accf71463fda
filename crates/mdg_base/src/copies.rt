//! Copies of lists and of what may be absent.

ghost use Rattle.std.specs.Prelude.{◌≡◌, IfOk};

use crate::{Items, NoMemory, Text};
use std::alloc::Global;

/// The same texts in the same order.
pub fn copy_texts(alloc: Global, all: &[Text]) -> Result<Items<Text>, NoMemory>
    ensures { IfOk result (λ made. made ≡ all.now) }
{
    let mut made = Items::create(alloc);
    for one in all {
        made.push(one.copy(alloc)?)?;
    }
    Ok(made)
}

/// The same numbers in the same order.
pub fn copy_numbers(alloc: Global, all: &[u32]) -> Result<Items<u32>, NoMemory>
    ensures { IfOk result (λ made. made ≡ all.now) }
{
    let copied = Vec::from_slice(alloc, all)?;
    Ok(Items::from_vec(copied))
}

/// The same text, where there is one.
pub fn copy_optional(alloc: Global, text: &Option<Text>) -> Result<Option<Text>, NoMemory>
    ensures { IfOk result (λ made. made ≡ text.now) }
{
    match text {
        Some(text) => Ok(Some(text.copy(alloc)?)),
        None => Ok(None),
    }
}
