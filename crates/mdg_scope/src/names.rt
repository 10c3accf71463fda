//! Tables of names, each name once, in the order in which they came.

ghost use Rattle.std.specs.Prelude.{◌≡◌, [], not, OnOk, IfOk, map, length};
ghost use Rattle.mdg_scope.specs.Names.{add_name, has_name, place_of, add_named, has_named};

use indexmap::IndexSet;
use mdg_base::NoMemory;
use std::alloc::Global;
use std::marker::Model;

/// A set of names. Contracts see it as the list of its names.
#[derive(Drop)]
pub struct Names<'a> {
    names: IndexSet<&'a str>,
}

impl<'a> Model for Names<'a> {
    ghost use Rattle.std.specs.Prelude.{List, ℕ, map};

    ghost Value = { List (List ℕ) };

    ghost view = { λ t. map (λ k. k.now) t.names.keys };
}

impl<'a> Names<'a> {
    /// A table of no names.
    pub fn create(alloc: Global) -> Names<'a>
        ensures { result ≡ [] }
    {
        Names {
            names: IndexSet::new(alloc),
        }
    }

    /// Whether the name is there.
    pub fn has(&self, name: &str) -> bool
        ensures { result ≡ has_name self.now name.now }
    {
        self.names.contains(&name)
    }

    /// The number of the name among the others, from 0.
    pub fn place(&self, name: &str) -> Option<usize>
        ensures { result ≡ place_of self.now name.now }
    {
        self.names.get_index_of(&name)
    }

    /// Puts the name after the others, unless it is there. The answer tells whether it wasn't.
    pub fn add(&mut self, name: &'a str) -> Result<bool, NoMemory>
        ensures added { IfOk result (λ new. new ≡ not (has_name self.old name.now)) }
        ensures names { OnOk result (self.new ≡ add_name self.old name.now) }
    {
        Ok(self.names.insert(name)?)
    }
}

/// A set of names in functions. Contracts see it as the list of pairs of a function's number and a name.
#[derive(Drop)]
pub struct ScopedNames<'a> {
    names: IndexSet<(u32, &'a str)>,
}

impl<'a> Model for ScopedNames<'a> {
    ghost use Rattle.std.specs.Prelude.{List, ℕ, map};

    ghost Value = { List (ℕ × List ℕ) };

    ghost view = { λ t. map (λ k. (k.0, k.1.now)) t.names.keys };
}

impl<'a> ScopedNames<'a> {
    /// A table of no names.
    pub fn create(alloc: Global) -> ScopedNames<'a>
        ensures { result ≡ [] }
    {
        ScopedNames {
            names: IndexSet::new(alloc),
        }
    }

    /// Whether the name is there, in that function.
    pub fn has(&self, function: u32, name: &'a str) -> bool
        ensures { result ≡ has_named self.now (function, name.now) }
    {
        self.names.contains(&(function, name))
    }

    /// Puts the name after the others, unless it is there in that function.
    pub fn add(&mut self, function: u32, name: &'a str) -> Result<(), NoMemory>
        ensures { OnOk result (self.new ≡ add_named self.old (function, name.now)) }
    {
        self.names.insert((function, name))?;
        Ok(())
    }

    /// How many names there are.
    pub fn len(&self) -> usize
        ensures { result ≡ length self.now }
    {
        self.names.len()
    }

    /// The names in order.
    pub fn names(&self) -> &[(u32, &'a str)]
        ensures { map (λ k. (k.0, k.1.now)) result.now ≡ self.now }
    {
        self.names.as_slice()
    }
}
