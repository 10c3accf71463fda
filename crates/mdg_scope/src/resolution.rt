//! What the names of a file mean.

ghost use Rattle.std.specs.Prelude.{◌≡◌, ◌<◌, ◌∷◌, [], ◌++◌, find, OnOk, IfOk, if◌then◌else◌};
ghost use Rattle.mdg_scope.specs.Names.{add_name, add_named};
ghost use Rattle.mdg_scope.specs.Resolution as resolutions;

use crate::names::{Names, ScopedNames};
use crate::occurrence::{Occurrence, OccurrenceKind};
use mdg_base::{Home, Items, NoMemory};
use mdg_profile::{Entry, Profile};
use std::alloc::Global;

/// Which names a table has.
#[derive(Clone, Copy, Debug, PartialEq, Eq)]
pub enum BindingKind {
    /// What binds a name, but for a function's own name.
    Binding,

    /// Own names of function expressions.
    Own,

    /// Parameters.
    Parameter,
}

/// What a name means.
#[derive(Clone, Copy, Debug, PartialEq, Eq)]
pub enum Resolution {
    /// The binding of the function with this number.
    Bound(u32),

    /// The function `require`, by which files ask for others.
    Require,

    /// `undefined`, `NaN` or `Infinity` (15.1.1).
    Literal,

    /// A global of the profile.
    Global,

    /// Nothing: no function around binds it, and the profile doesn't list it.
    Nothing,
}

/// What is bound where.
#[derive(Drop)]
pub struct Scopes<'a> {
    pub bindings: ScopedNames<'a>,
    pub owns: ScopedNames<'a>,
    pub parameters: ScopedNames<'a>,

    /// The function around each function, from function 1 on.
    pub parents: Items<u32>,
    pub globals: Names<'a>,
}

fn has_kind(kind: &OccurrenceKind, which: BindingKind) -> bool
    ensures { result ≡ resolutions.has_kind which kind.now }
{
    match which {
        BindingKind::Binding => matches!(
            kind,
            OccurrenceKind::Given
                | OccurrenceKind::Parameter
                | OccurrenceKind::RepeatedParameter
                | OccurrenceKind::Variable
                | OccurrenceKind::Declared
        ),
        BindingKind::Own => matches!(kind, OccurrenceKind::Own),
        BindingKind::Parameter => matches!(
            kind,
            OccurrenceKind::Parameter | OccurrenceKind::RepeatedParameter
        ),
    }
}

fn put<'a>(
    table: &mut ScopedNames<'a>,
    occurrence: &'a Occurrence,
    which: BindingKind,
) -> Result<(), NoMemory>
    ensures { OnOk result (table.new ≡ (if resolutions.has_kind which occurrence.now.kind then add_named table.old (occurrence.now.within, occurrence.now.name) else table.old)) }
{
    if has_kind(&occurrence.kind, which) {
        table.add(occurrence.within, occurrence.name.as_str())
    } else {
        Ok(())
    }
}

fn named<'a>(
    alloc: Global,
    occurrences: &'a [Occurrence],
    which: BindingKind,
) -> Result<ScopedNames<'a>, NoMemory>
    ensures { IfOk result (λ t. t ≡ resolutions.named_from which [] occurrences.now) }
{
    let mut table = ScopedNames::create(alloc);
    for occurrence in occurrences {
        put(&mut table, occurrence, which)?;
    }
    Ok(table)
}

fn put_parent(made: &mut Items<u32>, occurrence: &Occurrence) -> Result<(), NoMemory>
    ensures { OnOk result (made.new ≡ made.old ++ resolutions.own_parent occurrence.now) }
{
    if matches!(occurrence.kind, OccurrenceKind::Begins(_)) {
        made.push(occurrence.within)
    } else {
        Ok(())
    }
}

#[tactic(auto, using(crate::proofs::Walks::walks))]
fn parents(alloc: Global, occurrences: &[Occurrence]) -> Result<Items<u32>, NoMemory>
    ensures { IfOk result (λ p. p ≡ resolutions.parents occurrences.now) }
{
    let mut made = Items::create(alloc);
    for occurrence in occurrences {
        put_parent(&mut made, occurrence)?;
    }
    Ok(made)
}

fn put_global<'a>(table: &mut Names<'a>, entry: &'a Entry) -> Result<(), NoMemory>
    ensures { OnOk result (table.new ≡ (if resolutions.is_global entry.now.home then add_name table.old entry.now.name else table.old)) }
{
    if matches!(entry.home, Home::Global) {
        table.add(entry.name.as_str())?;
    }
    Ok(())
}

/// The globals of a profile with these entries, each once, in the order of the entries.
pub fn globals<'a>(alloc: Global, entries: &'a [Entry]) -> Result<Names<'a>, NoMemory>
    ensures { IfOk result (λ t. t ≡ resolutions.globals_from [] entries.now) }
{
    let mut table = Names::create(alloc);
    for entry in entries {
        put_global(&mut table, entry)?;
    }
    Ok(table)
}

/// What the occurrences bind, and the globals of the profile.
pub fn scopes_of<'a>(
    alloc: Global,
    occurrences: &'a [Occurrence],
    profile: &'a Profile,
) -> Result<Scopes<'a>, NoMemory>
    ensures { IfOk result (λ t. t ≡ resolutions.scopes occurrences.now profile.now) }
{
    Ok(Scopes {
        bindings: named(alloc, occurrences, BindingKind::Binding)?,
        owns: named(alloc, occurrences, BindingKind::Own)?,
        parameters: named(alloc, occurrences, BindingKind::Parameter)?,
        parents: parents(alloc, occurrences)?,
        globals: globals(alloc, profile.entries.as_slice())?,
    })
}

/// Whether the name, where nothing binds it, is a value of the language (15.1.1).
pub fn is_literal(name: &str) -> bool
    ensures { result ≡ resolutions.is_literal name.now }
{
    name == "undefined" || name == "NaN" || name == "Infinity"
}

/// What a name means that no function around it binds. `globals` are those of the profile.
pub fn free_resolution<'a>(globals: &Names<'a>, name: &str) -> Resolution
    ensures { result ≡ resolutions.free_resolution globals.now name.now }
{
    if name == "require" {
        Resolution::Require
    } else if is_literal(name) {
        Resolution::Literal
    } else if globals.has(name) {
        Resolution::Global
    } else {
        Resolution::Nothing
    }
}

impl<'a> Scopes<'a> {
    fn binds(&self, function: u32, name: &'a str) -> bool
        ensures { result ≡ resolutions.binds self.now function name.now }
    {
        self.bindings.has(function, name) || self.owns.has(function, name)
    }

    fn parent(&self, function: u32) -> u32
        requires { 0 < function }
        ensures { result ≡ resolutions.parent self.now.parents function }
    {
        let index = function as usize - 1;
        self.parents.as_slice().get(index).copied().unwrap_or(0)
    }

    /// The innermost function that binds the name, of this one and those around it.
    #[tactic(auto, using(crate::proofs::EnclosingLemmas::steps))]
    fn enclosing_binder(&self, steps: u32, function: u32, name: &'a str) -> Option<u32>
        ensures { result ≡ find (λ g. resolutions.binds self.now g name.now) (resolutions.around self.now.parents steps function) }
    {
        if self.binds(function, name) {
            return Some(function);
        }
        if steps == 0 || function == 0 {
            return None;
        }
        self.enclosing_binder(steps - 1, self.parent(function), name)
    }

    /// What the name means in the function.
    pub fn resolve(&self, function: u32, name: &'a str) -> Resolution
        ensures { result ≡ resolutions.resolution self.now function name.now }
    {
        match self.enclosing_binder(function, function, name) {
            Some(around) => Resolution::Bound(around),
            None => free_resolution(&self.globals, name),
        }
    }
}
