//! The candidates that a text names.
ghost use Rattle.std.specs.Prelude.{◌≡◌, ◌++◌, [], IfOk};
ghost use Rattle.mdg_base.specs.Segments.{folder_of};
ghost use Rattle.mdg_pack.specs.Candidates as spec;
ghost use Rattle.mdg_pack.specs.Paths.{joined};

use crate::path::{join, path_of};
use mdg_base::{Items, NoMemory, Segments, Text};
use std::alloc::Global;

/// The entry where no `main` names it.
pub const INDEX: &str = "index.js";

/// Whether the text ends so.
pub fn has_end(text: &str, end: &str) -> bool
    ensures { result ≡ spec.has_end end.now text.now }
{
    text.ends_with(end)
}

// Whether the text names a folder: it ends in a slash, or `.` or `..` is its last segment.
#[tactic(auto, unfolding(crate::specs::Candidates::names_folder))]
fn names_folder(text: &str) -> bool
    ensures { result ≡ spec.names_folder text.now }
{
    has_end(text, "/") || text == "." || text == ".." || has_end(text, "/.") || has_end(text, "/..")
}

// The path with more after it.
fn extended(alloc: Global, path: &str, end: &str) -> Result<Text, NoMemory>
    ensures { IfOk result (λ text. text ≡ path.now ++ end.now) }
{
    let mut text = Text::of(alloc, path)?;
    text.add(end)?;
    Ok(text)
}

// The `index.js` of a folder.
fn index_in(alloc: Global, path: &str) -> Result<Text, NoMemory>
    ensures { IfOk result (λ text. text ≡ joined path.now spec.index) }
{
    let mut text = Text::of(alloc, path)?;
    join(&mut text, INDEX)?;
    Ok(text)
}

// The candidates for what a path names, in order.
#[tactic(auto, unfolding(crate::specs::Candidates::candidates))]
fn candidates(alloc: Global, is_folder: bool, path: &str) -> Result<Items<Text>, NoMemory>
    ensures { IfOk result (λ list. list ≡ spec.candidates is_folder path.now) }
{
    let mut list = Items::create(alloc);
    if is_folder {
        list.push(index_in(alloc, path)?)?;
        return Ok(list);
    }
    let script = extended(alloc, path, ".js")?;
    let index = index_in(alloc, path)?;
    if has_end(path, ".js") {
        list.push(Text::of(alloc, path)?)?;
    }
    list.push(script)?;
    list.push(index)?;
    Ok(list)
}

// The candidates of a text that stands in a folder, in order.
#[tactic(auto, unfolding(crate::specs::Candidates::candidates_from))]
fn candidates_from(alloc: Global, folder: Segments, text: &str) -> Result<Items<Text>, NoMemory>
    ensures { IfOk result (λ list. list ≡ spec.candidates_from folder text.now) }
{
    let mut place = folder;
    let _inside = place.follow(alloc, text)?;
    let path = path_of(alloc, place.as_slice())?;
    candidates(alloc, names_folder(text), path.as_str())
}

/// The candidates of a text in the package's folder, in order.
pub fn candidates_at_root(alloc: Global, text: &str) -> Result<Items<Text>, NoMemory>
    ensures { IfOk result (λ list. list ≡ spec.candidates_from [] text.now) }
{
    candidates_from(alloc, Segments::create(alloc), text)
}

/// The candidates of a text that stands in a file, in order.
pub fn candidates_in_file(alloc: Global, path: &str, text: &str) -> Result<Items<Text>, NoMemory>
    ensures { IfOk result (λ list. list ≡ spec.candidates_from (folder_of path.now) text.now) }
{
    let folder = Segments::folder_of(alloc, path)?;
    candidates_from(alloc, folder, text)
}
