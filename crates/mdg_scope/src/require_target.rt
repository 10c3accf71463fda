//! What a call of `require` asks for.

ghost use Rattle.std.specs.Prelude.{◌≡◌, ◌++◌, Some, nat_eq, codes, IfOk};
ghost use Rattle.std.specs.List.{ends_with};
ghost use Rattle.mdg_scope.specs.RequireTargets as targets;

use mdg_base::{NoMemory, Segments, Text};
use std::alloc::Global;

/// What a text asks for.
#[derive(Debug, Drop)]
pub enum RequireTarget {
    /// Nothing: it is empty, begins with `/`, is relative and ends in `.node`, or leaves the folder.
    Refused,

    /// A module or data outside the package, under this name.
    Bare(Text),

    /// A file of the package.
    InPackage,
}

/// The path of a place as a text: `.`, and each segment after a `/`.
#[tactic(auto, using(crate::proofs::Walks::walks))]
fn path_text(alloc: Global, place: &Segments) -> Result<Text, NoMemory>
    ensures { IfOk result (λ t. t ≡ codes "." ++ targets.slashed place.now) }
{
    let mut text = Text::of(alloc, ".")?;
    for segment in place.as_slice() {
        text.add("/")?;
        text.add(segment.as_str())?;
    }
    Ok(text)
}

fn has_prefix(text: &str, prefix: &str) -> bool
    ensures { result ≡ targets.has_prefix text.now prefix.now }
{
    text.starts_with(prefix)
}

fn has_suffix(text: &str, suffix: &str) -> bool
    ensures { result ≡ ends_with nat_eq text.now suffix.now }
{
    text.ends_with(suffix)
}

fn is_relative(text: &str) -> bool
    ensures { result ≡ targets.is_relative text.now }
{
    text == "." || text == ".." || has_prefix(text, "./") || has_prefix(text, "../")
}

fn without_node(text: &str) -> &str
    ensures { result.now ≡ targets.without_node text.now }
{
    match text.strip_prefix("node:") {
        Some(rest) => rest,
        None => text,
    }
}

/// What a relative text asks for.
fn relative(alloc: Global, path: &str, text: &str) -> Result<RequireTarget, NoMemory>
    ensures { IfOk result (λ a. a ≡ targets.relative path.now text.now) }
{
    if has_suffix(text, ".node") {
        return Ok(RequireTarget::Refused);
    }
    match joined(alloc, path, text)? {
        Some(place) => found(alloc, text, &place),
        None => Ok(RequireTarget::Refused),
    }
}

/// From the folder of the file along the text, where that never leaves the package's folder.
fn joined(alloc: Global, path: &str, text: &str) -> Result<Option<Segments>, NoMemory>
    ensures { IfOk result (λ place. place ≡ targets.joined path.now text.now) }
{
    let mut place = Segments::folder_of(alloc, path)?;
    if place.follow(alloc, text)? {
        Ok(Some(place))
    } else {
        Ok(None)
    }
}

fn found(alloc: Global, text: &str, place: &Segments) -> Result<RequireTarget, NoMemory>
    ensures { IfOk result (λ a. a ≡ targets.found text.now (Some place.now)) }
{
    if has_suffix(text, ".json") {
        Ok(RequireTarget::Bare(path_text(alloc, place)?))
    } else {
        Ok(RequireTarget::InPackage)
    }
}

/// What the text asks for in the file with this path.
pub fn target_of(alloc: Global, path: &str, text: &str) -> Result<RequireTarget, NoMemory>
    ensures { IfOk result (λ a. a ≡ targets.target_of path.now text.now) }
{
    if text.is_empty() || has_prefix(text, "/") {
        return Ok(RequireTarget::Refused);
    }
    if is_relative(text) {
        return relative(alloc, path, text);
    }
    Ok(RequireTarget::Bare(Text::of(alloc, without_node(text))?))
}
