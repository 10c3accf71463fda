//! What `package.json` says of the entry.
ghost use Rattle.std.specs.Prelude.{◌≡◌, Some, IfOk};
ghost use Rattle.mdg_pack.specs.Entry.{IsEntryOf, ManifestAnswer, ValueAnswer};
ghost use Rattle.mdg_pack.specs.Manifest as spec;
ghost use Rattle.serde_json.specs.View.{view};

use crate::PackFault;
use crate::candidates::{INDEX, candidates_at_root, has_end};
use mdg_base::{Items, NoMemory, Segments, Text};
use serde_json::Value;
use std::alloc::Global;

// Whether no file of a package can be meant by the text of `main`.
#[tactic(auto, unfolding(crate::specs::Manifest::is_wrong_main))]
fn is_wrong_main(alloc: Global, main: &str) -> Result<bool, NoMemory>
    ensures { IfOk result (λ wrong. wrong ≡ spec.is_wrong_main main.now) }
{
    let mut place = Segments::create(alloc);
    let stays = place.follow(alloc, main)?;
    Ok(has_end(main, ".json") || has_end(main, ".node") || !stays)
}

// `index.js` alone.
fn index_alone(alloc: Global) -> Result<Items<Text>, NoMemory>
    ensures { IfOk result (λ entry. entry ≡ spec.index_alone) }
{
    let mut entry = Items::create(alloc);
    entry.push(Text::of(alloc, INDEX)?)?;
    Ok(entry)
}

// The candidates for the entry by the text of `main`.
#[tactic(auto, unfolding(crate::specs::Manifest::entry_of_text))]
fn entry_of_text(alloc: Global, main: &str) -> Result<Items<Text>, PackFault>
    ensures { IsEntryOf (spec.entry_of_text main.now) result }
{
    if main.is_empty() {
        return Ok(index_alone(alloc)?);
    }
    if is_wrong_main(alloc, main)? {
        return Err(PackFault::BadManifest);
    }
    let mut entry = candidates_at_root(alloc, main)?;
    entry.push(Text::of(alloc, INDEX)?)?;
    Ok(entry)
}

// The candidates for the entry by the value of the manifest.
fn entry_of_value(alloc: Global, value: &Value) -> Result<Items<Text>, PackFault>
    ensures { IsEntryOf (spec.entry_of_value (view value.now)) result }
{
    if value.as_object().is_none() {
        return Err(PackFault::BadManifest);
    }
    match value.get("main") {
        None => Ok(index_alone(alloc)?),
        Some(main) => match main.as_str() {
            Some(text) => entry_of_text(alloc, text),
            None => Err(PackFault::BadManifest),
        },
    }
}

// The value of JSON that the manifest is.
fn value_of(alloc: Global, bytes: &[u8]) -> Result<Value, PackFault>
    ensures { ValueAnswer bytes.now result }
{
    match Value::from_slice(alloc, bytes) {
        Ok(value) => Ok(value),
        Err(fault) if fault.is_memory() => Err(PackFault::NoMemory),
        Err(_) => Err(PackFault::BadManifest),
    }
}

/// The candidates for the entry by the bytes of the manifest, in order.
pub fn entry_of_manifest(alloc: Global, bytes: &[u8]) -> Result<Items<Text>, PackFault>
    ensures { ManifestAnswer bytes.now result }
{
    let value = value_of(alloc, bytes)?;
    entry_of_value(alloc, &value)
}

/// The candidates for the entry where there is no manifest.
pub fn entry_without_manifest(alloc: Global) -> Result<Items<Text>, NoMemory>
    ensures { IfOk result (λ entry. entry ≡ spec.index_alone) }
{
    index_alone(alloc)
}
