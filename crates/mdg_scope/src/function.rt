//! The functions of a file with their names.

ghost use Rattle.std.specs.Prelude.{◌≡◌, ◌++◌, ◌∷◌, [], ◌<◌, map, length, slice_set, OnOk, IfOk, if◌then◌else◌};
ghost use Rattle.mdg_scope.specs.Functions as functions_of;
ghost use Rattle.mdg_scope.specs.Resolution as resolutions;

use crate::bound::BoundFunction;
use crate::names::ScopedNames;
use crate::occurrence::{Head, Occurrence, OccurrenceKind};
use crate::resolution::{Resolution, Scopes};
use mdg_base::{Items, NoMemory, Text, copy_optional, copy_texts};
use mdg_tree::At;
use std::alloc::Global;

/// Which occurrences a table is made of.
#[derive(Clone, Copy, Debug, PartialEq, Eq)]
pub enum Filter {
    /// All appearances of what their names mean.
    Any,

    /// Those that stand in a nested function.
    Nested,

    /// Those that use a name.
    Used,
}

/// How the bindings of a file are used.
#[derive(Drop)]
pub struct Uses<'a> {
    /// All, in the order of the first occurrence that binds or means them.
    pub names: ScopedNames<'a>,

    /// Those that a nested function uses.
    pub cells: ScopedNames<'a>,

    /// Those that are used at all.
    pub used: ScopedNames<'a>,
}

fn is_naming(kind: &OccurrenceKind) -> bool
    ensures { result ≡ functions_of.is_naming kind.now }
{
    matches!(
        kind,
        OccurrenceKind::Given
            | OccurrenceKind::Parameter
            | OccurrenceKind::RepeatedParameter
            | OccurrenceKind::Variable
            | OccurrenceKind::Declared
            | OccurrenceKind::Own
            | OccurrenceKind::Read
            | OccurrenceKind::Assigned
            | OccurrenceKind::TypeOperand
            | OccurrenceKind::Called(_)
    )
}

fn is_use(kind: &OccurrenceKind) -> bool
    ensures { result ≡ resolutions.is_use kind.now }
{
    matches!(
        kind,
        OccurrenceKind::Read
            | OccurrenceKind::Assigned
            | OccurrenceKind::TypeOperand
            | OccurrenceKind::Called(_)
    )
}

/// Whether it is the name of a function expression that binds that name otherwise (13).
fn is_overridden<'a>(scopes: &Scopes<'a>, occurrence: &'a Occurrence) -> bool
    ensures { result ≡ functions_of.is_overridden scopes.now occurrence.now }
{
    matches!(occurrence.kind, OccurrenceKind::Own)
        && scopes
            .bindings
            .has(occurrence.within, occurrence.name.as_str())
}

fn is_appearance<'a>(scopes: &Scopes<'a>, occurrence: &'a Occurrence) -> bool
    ensures { result ≡ functions_of.is_appearance scopes.now occurrence.now }
{
    is_naming(&occurrence.kind) && !is_overridden(scopes, occurrence)
}

fn passes<'a>(which: Filter, scopes: &Scopes<'a>, occurrence: &'a Occurrence, function: u32) -> bool
    ensures { result ≡ functions_of.passes which scopes.now occurrence.now function }
{
    match which {
        Filter::Any => is_appearance(scopes, occurrence),
        Filter::Nested => is_appearance(scopes, occurrence) && occurrence.within != function,
        Filter::Used => is_use(&occurrence.kind),
    }
}

fn put_filtered<'a>(
    table: &mut ScopedNames<'a>,
    which: Filter,
    scopes: &Scopes<'a>,
    occurrence: &'a Occurrence,
    means: Resolution,
) -> Result<(), NoMemory>
    ensures { OnOk result (table.new ≡ functions_of.filtered which scopes.now occurrence.now means table.old) }
{
    match means {
        Resolution::Bound(function) if passes(which, scopes, occurrence, function) => table.add(
            function,
            occurrence.name.as_str(),
        ),
        Resolution::Bound(_)
        | Resolution::Require
        | Resolution::Literal
        | Resolution::Global
        | Resolution::Nothing => Ok(()),
    }
}

fn filtered<'a>(
    alloc: Global,
    which: Filter,
    occurrences: &'a [Occurrence],
    scopes: &Scopes<'a>,
) -> Result<ScopedNames<'a>, NoMemory>
    ensures { IfOk result (λ t. t ≡ functions_of.filtered_from which scopes.now [] occurrences.now) }
{
    let mut table = ScopedNames::create(alloc);
    for occurrence in occurrences {
        let means = scopes.resolve(occurrence.within, occurrence.name.as_str());
        put_filtered(&mut table, which, scopes, occurrence, means)?;
    }
    Ok(table)
}

/// How the bindings are used.
pub fn uses_of<'a>(
    alloc: Global,
    occurrences: &'a [Occurrence],
    scopes: &Scopes<'a>,
) -> Result<Uses<'a>, NoMemory>
    ensures { IfOk result (λ u. u ≡ functions_of.uses scopes.now occurrences.now) }
{
    Ok(Uses {
        names: filtered(alloc, Filter::Any, occurrences, scopes)?,
        cells: filtered(alloc, Filter::Nested, occurrences, scopes)?,
        used: filtered(alloc, Filter::Used, occurrences, scopes)?,
    })
}

fn has_own_name<'a>(scopes: &Scopes<'a>, uses: &Uses<'a>, head: &'a Head) -> bool
    ensures { result ≡ functions_of.has_own_name scopes.now uses.now head.now.number head.now.name }
{
    match &head.name {
        Some(name) => {
            let name = name.as_str();
            scopes.owns.has(head.number, name)
                && !scopes.bindings.has(head.number, name)
                && uses.used.has(head.number, name)
        }
        None => false,
    }
}

fn head_function<'a>(
    alloc: Global,
    scopes: &Scopes<'a>,
    uses: &Uses<'a>,
    occurrence: &'a Occurrence,
    head: &'a Head,
) -> Result<BoundFunction, NoMemory>
    ensures { IfOk result (λ f. f ≡ functions_of.head_function scopes.now uses.now occurrence.now head.now) }
{
    Ok(BoundFunction {
        parent: Some(occurrence.within),
        name: copy_optional(alloc, &head.name)?,
        parameters: copy_texts(alloc, head.parameters.as_slice())?,
        locals: Items::create(alloc),
        cells: Items::create(alloc),
        own_name: has_own_name(scopes, uses, head),
        line: head.line,
        offset: occurrence.offset,
    })
}

fn body(alloc: Global, at: At) -> BoundFunction
    ensures { result ≡ functions_of.body at }
{
    BoundFunction {
        parent: None,
        name: None,
        parameters: Items::create(alloc),
        locals: Items::create(alloc),
        cells: Items::create(alloc),
        own_name: false,
        line: at.line,
        offset: at.offset,
    }
}

fn put_head<'a>(
    made: &mut Vec<BoundFunction>,
    alloc: Global,
    scopes: &Scopes<'a>,
    uses: &Uses<'a>,
    occurrence: &'a Occurrence,
) -> Result<(), NoMemory>
    ensures { OnOk result (made.new.items ≡ made.old.items ++ functions_of.begun_by scopes.now uses.now occurrence.now) }
{
    if let OccurrenceKind::Begins(head) = &occurrence.kind {
        made.push(head_function(alloc, scopes, uses, occurrence, head)?)?;
    }
    Ok(())
}

/// The functions before their names are known.
#[tactic(auto, using(crate::proofs::Walks::walks))]
fn heads<'a>(
    alloc: Global,
    scopes: &Scopes<'a>,
    uses: &Uses<'a>,
    at: At,
    occurrences: &'a [Occurrence],
) -> Result<Vec<BoundFunction>, NoMemory>
    ensures { IfOk result (λ m. m.items ≡ functions_of.body at ∷ functions_of.heads scopes.now uses.now occurrences.now) }
{
    let mut made = Vec::new(alloc);
    made.push(body(alloc, at))?;
    for occurrence in occurrences {
        put_head(&mut made, alloc, scopes, uses, occurrence)?;
    }
    Ok(made)
}

/// One more name of a function.
fn add_name<'a>(
    function: &mut BoundFunction,
    alloc: Global,
    scopes: &Scopes<'a>,
    uses: &Uses<'a>,
    number: u32,
    name: &'a str,
) -> Result<(), NoMemory>
    ensures { OnOk result (function.new ≡ functions_of.placed scopes.now uses.now (number, name.now) function.old) }
{
    if uses.cells.has(number, name) {
        return function.cells.push(Text::of(alloc, name)?);
    }
    if scopes.parameters.has(number, name) {
        return Ok(());
    }
    function.locals.push(Text::of(alloc, name)?)
}

fn put_name<'a>(
    functions: &mut [BoundFunction],
    alloc: Global,
    scopes: &Scopes<'a>,
    uses: &Uses<'a>,
    number: u32,
    name: &'a str,
) -> Result<(), NoMemory>
    ensures { OnOk result (functions.new ≡ functions_of.put_name scopes.now uses.now (number, name.now) 0 functions.old) }
{
    let index = number as usize;
    if index < functions.len() {
        add_name(&mut functions[index], alloc, scopes, uses, number, name)?;
    }
    Ok(())
}

/// The functions in the order of their numbers, with their names.
pub fn functions_with<'a>(
    alloc: Global,
    scopes: &Scopes<'a>,
    uses: &Uses<'a>,
    at: At,
    occurrences: &'a [Occurrence],
) -> Result<Items<BoundFunction>, NoMemory>
    ensures { IfOk result (λ f. f ≡ functions_of.functions_by scopes.now uses.now at occurrences.now) }
{
    let mut made = heads(alloc, scopes, uses, at, occurrences)?;
    let names = uses.names.names();
    for one in names {
        put_name(made.as_mut_slice(), alloc, scopes, uses, one.0, one.1)?;
    }
    Ok(Items::from_vec(made))
}
