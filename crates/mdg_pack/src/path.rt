//! Paths from the package's folder.
ghost use Rattle.std.specs.Prelude.{◌≡◌, IfOk, OnOk};
ghost use Rattle.mdg_pack.specs.Paths as spec;

use mdg_base::{NoMemory, Text};
use std::alloc::Global;

/// One more segment.
#[tactic(auto, unfolding(crate::specs::Paths::joined))]
pub fn join(path: &mut Text, segment: &str) -> Result<(), NoMemory>
    ensures { OnOk result (path.new ≡ spec.joined path.old segment.now) }
{
    if !path.as_str().is_empty() {
        path.add("/")?;
    }
    path.add(segment)
}

/// The path of a place, whose segments these are.
#[tactic(auto, unfolding(crate::specs::Paths::path_of))]
pub fn path_of(alloc: Global, place: &[Text]) -> Result<Text, NoMemory>
    ensures { IfOk result (λ path. path ≡ spec.path_of place.now) }
{
    let mut path = Text::of(alloc, "")?;
    for segment in place {
        join(&mut path, segment.as_str())?;
    }
    Ok(path)
}
