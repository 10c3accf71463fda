//! Paths from the folder of a package, segment by segment.

ghost use Rattle.std.specs.Prelude.{◌≡◌, ◌&&◌, [], not, IfOk, OnOk};
ghost use Rattle.mdg_base.specs.Segments as spec;
ghost use Rattle.mdg_base.specs.Segments.{followed, is_root, is_up, segments, stays};

use crate::{NoMemory, Text};
use std::alloc::Global;
use std::marker::Model;

/// A place in the folder of a package. Contracts see it as the list of its segments; the empty list is the folder.
#[derive(Drop)]
pub struct Segments {
    parts: Vec<Text>,
}

impl Model for Segments {
    ghost use Rattle.std.specs.Prelude.{List, ℕ};

    ghost Value = { List (List ℕ) };

    ghost view = { λ place. place.parts.items };
}

impl Segments {
    /// The package's folder itself. It takes no memory yet.
    pub fn create(alloc: Global) -> Segments
        ensures { result ≡ [] }
    {
        Segments {
            parts: Vec::new(alloc),
        }
    }

    /// The folder in which the file with this path stands.
    #[tactic(auto, unfolding(crate::specs::Segments::folder_of))]
    pub fn folder_of(alloc: Global, path: &str) -> Result<Segments, NoMemory>
        ensures { IfOk result (λ place. place ≡ spec.folder_of path.now) }
    {
        let mut place = Segments::create(alloc);
        let _inside = place.follow(alloc, path)?;
        let _last = place.parts.pop();
        Ok(place)
    }

    /// The segments in their order.
    pub fn as_slice(&self) -> &[Text]
        ensures { result.now ≡ self.now }
    {
        self.parts.as_slice()
    }

    // One segment on; whether that stays in the package's folder.
    #[tactic(auto, unfolding(crate::specs::Segments::entered))]
    fn enter(&mut self, alloc: Global, segment: &str) -> Result<bool, NoMemory>
        ensures place { OnOk result (self.new ≡ spec.entered self.old segment.now) }
        ensures inside { IfOk result (λ inside. inside ≡ not (is_up segment.now && is_root self.old)) }
    {
        if segment.is_empty() || segment == "." {
            return Ok(true);
        }
        if segment == ".." {
            let inside = !self.parts.is_empty();
            let _above = self.parts.pop();
            return Ok(inside);
        }
        self.parts.push(Text::of(alloc, segment)?)?;
        Ok(true)
    }

    /// Along what stands between the slashes of a text; whether that never leaves the package's folder. Above the
    /// folder there is nothing: a `..` there stays where it is.
    pub fn follow(&mut self, alloc: Global, text: &str) -> Result<bool, NoMemory>
        ensures place { OnOk result (self.new ≡ followed self.old (segments text.now)) }
        ensures inside { IfOk result (λ inside. inside ≡ stays self.old (segments text.now)) }
    {
        let mut rest = text;
        let mut inside = true;
        while let Some((segment, after)) = rest.split_once('/') {
            inside &= self.enter(alloc, segment)?;
            rest = after;
        }
        inside &= self.enter(alloc, rest)?;
        Ok(inside)
    }
}
