//! The globals and modules that were seen, for look-ups.

ghost use Rattle.std.specs.Prelude.{◌≡◌, [], not, IfOk, OnOk};
ghost use Rattle.mdg_scope.specs.Names.{has_name};
ghost use Rattle.mdg_lower.specs.SharedNames as known;

use mdg_base::{Home, NoMemory, Text};
use mdg_scope::Names;
use std::alloc::Global;

/// A global or a module.
#[derive(Debug, Drop)]
pub struct SharedName {
    pub home: Home,
    pub name: Text,
}

/// The names that were seen, by home.
#[derive(Drop)]
pub struct SharedNames<'a> {
    globals: Names<'a>,
    modules: Names<'a>,
}

impl<'a> SharedNames<'a> {
    /// Nothing was seen.
    pub fn create(alloc: Global) -> SharedNames<'a>
        ensures { result ≡ known.seen_in [] }
    {
        SharedNames {
            globals: Names::create(alloc),
            modules: Names::create(alloc),
        }
    }

    /// Puts the name among those of the home. The answer tells whether it is new there.
    pub fn add(&mut self, home: Home, name: &'a str) -> Result<bool, NoMemory>
        ensures added { IfOk result (λ new. new ≡ not (has_name (known.names_at home self.old) name.now)) }
        ensures names { OnOk result (self.new ≡ known.with_name home self.old name.now) }
    {
        match home {
            Home::Global => self.globals.add(name),
            Home::Module => self.modules.add(name),
        }
    }
}
