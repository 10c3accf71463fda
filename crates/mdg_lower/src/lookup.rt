//! What names, keywords and temporaries stand for in a function.

ghost use Rattle.std.specs.Prelude.{◌≡◌, ◌+◌, IfOk, length, slice_get};
ghost use Rattle.std.specs.Option.{option_copied};
ghost use Rattle.mdg_lower.specs.Lookup as lookup;

use crate::scope::{Bindings, Dependency, Meaning, Scope};
use mdg_base::{CellId, FunId, Local, NoMemory};
use mdg_scope::{Names, is_literal};

/// One more than a number of a temporary or a line.
pub fn increment(number: u32) -> Result<u32, NoMemory>
    ensures { IfOk result (λ n. n ≡ number + 1) }
{
    number.checked_add(1).ok_or(NoMemory)
}

/// The number that stands so far after the first.
pub fn number_from(first: u32, place: usize) -> Result<u32, NoMemory>
    ensures { IfOk result (λ n. n ≡ first + place) }
{
    let Ok(place) = u32::try_from(place) else {
        return Err(NoMemory);
    };
    first.checked_add(place).ok_or(NoMemory)
}

fn cell_in<'a>(bindings: &Bindings<'a>, name: &str) -> Result<Option<Meaning>, NoMemory>
    ensures { IfOk result (λ m. m ≡ lookup.cell_in bindings.now name.now) }
{
    match bindings.cells.place(name) {
        Some(place) => {
            let cell = CellId(number_from(bindings.first_cell, place)?);
            Ok(Some(Meaning::Cell(cell, bindings.own.has(name))))
        }
        None => Ok(None),
    }
}

fn local_in<'a>(bindings: &Bindings<'a>, name: &str) -> Result<Option<Meaning>, NoMemory>
    ensures { IfOk result (λ m. m ≡ lookup.local_in bindings.now name.now) }
{
    match bindings.locals.place(name) {
        Some(place) => {
            let local = Local(number_from(0, place)?);
            Ok(Some(Meaning::Local(local, bindings.own.has(name))))
        }
        None => Ok(None),
    }
}

fn bindings_at<'s, 'a>(
    all_bindings: &'s [Bindings<'a>],
    function: Option<u32>,
) -> Option<&'s Bindings<'a>>
    ensures { option_copied result ≡ lookup.bindings_at all_bindings.now function }
{
    match function {
        Some(function) => all_bindings.get(function as usize),
        None => None,
    }
}

/// The cell with this name of the function, or of one of so many around it.
#[tactic(auto, using(crate::proofs::EnclosingLemmas::outwards))]
fn enclosing_cell<'a>(
    all_bindings: &[Bindings<'a>],
    steps: usize,
    function: Option<u32>,
    name: &str,
) -> Result<Option<Meaning>, NoMemory>
    ensures { IfOk result (λ m. m ≡ lookup.enclosing_cell all_bindings.now steps function name.now) }
{
    if steps == 0 {
        return Ok(None);
    }
    let Some(bindings) = bindings_at(all_bindings, function) else {
        return Ok(None);
    };
    match cell_in(bindings, name)? {
        Some(meaning) => Ok(Some(meaning)),
        None => enclosing_cell(all_bindings, steps - 1, bindings.parent, name),
    }
}

/// What the innermost binding around gives.
fn bound_in<'a>(
    all_bindings: &[Bindings<'a>],
    bindings: &Bindings<'a>,
    name: &str,
) -> Result<Option<Meaning>, NoMemory>
    ensures { IfOk result (λ m. m ≡ lookup.or_else (lookup.cell_in bindings.now name.now)
        (lookup.or_else (lookup.local_in bindings.now name.now)
        (lookup.enclosing_cell all_bindings.now (length all_bindings.now) bindings.now.parent name.now))) }
{
    if let Some(meaning) = cell_in(bindings, name)? {
        return Ok(Some(meaning));
    }
    match local_in(bindings, name)? {
        Some(meaning) => Ok(Some(meaning)),
        None => enclosing_cell(all_bindings, all_bindings.len(), bindings.parent, name),
    }
}

fn free_meaning<'a>(globals: &Names<'a>, name: &str) -> Meaning
    ensures { result ≡ lookup.free_meaning globals.now name.now }
{
    if name == "require" {
        Meaning::Require
    } else if is_literal(name) {
        Meaning::Literal
    } else if globals.has(name) {
        Meaning::Global
    } else {
        Meaning::Nothing
    }
}

fn bound<'a>(scope: &Scope<'a>, name: &str) -> Result<Option<Meaning>, NoMemory>
    ensures { IfOk result (λ m. m ≡ lookup.bound_by scope.now.all_bindings
        (slice_get scope.now.all_bindings scope.now.number) name.now) }
{
    let all_bindings = scope.all_bindings.as_slice();
    match all_bindings.get(scope.number as usize) {
        Some(bindings) => bound_in(all_bindings, bindings, name),
        None => Ok(None),
    }
}

/// What the name means in the function.
#[tactic(auto, unfolding(crate::specs::Lookup::meaning))]
pub fn meaning<'a>(scope: &Scope<'a>, name: &str) -> Result<Meaning, NoMemory>
    ensures { IfOk result (λ m. m ≡ lookup.meaning scope.now name.now) }
{
    match bound(scope, name)? {
        Some(meaning) => Ok(meaning),
        None => Ok(free_meaning(&scope.globals, name)),
    }
}

/// The local that a name is.
pub fn local_of(meaning: Meaning) -> Option<Local>
    ensures { result ≡ lookup.local_of meaning }
{
    match meaning {
        Meaning::Local(local, _) => Some(local),
        Meaning::Cell(..)
        | Meaning::Require
        | Meaning::Literal
        | Meaning::Global
        | Meaning::Nothing => None,
    }
}

/// The temporary with this number.
#[tactic(auto, unfolding(crate::specs::Lookup::temp))]
pub fn temp<'a>(scope: &Scope<'a>, number: u32) -> Result<Local, NoMemory>
    ensures { IfOk result (λ x. x ≡ lookup.temp scope.now number) }
{
    let Some(local) = scope.temporaries.checked_add(number) else {
        return Err(NoMemory);
    };
    Ok(Local(local))
}

/// The function whose keyword `function` stands at this offset.
#[tactic(auto, unfolding(crate::specs::Lookup::function_at))]
pub fn function_at<'a>(scope: &Scope<'a>, offset: u32) -> Result<FunId, NoMemory>
    ensures { IfOk result (λ f. f ≡ lookup.function_at scope.now offset) }
{
    match scope.functions.place(offset) {
        Some(place) => Ok(FunId(number_from(scope.first_function, place)?)),
        None => Ok(FunId(scope.first_function)),
    }
}

/// The local of the `for` with `in` that stands at this offset.
#[tactic(auto, unfolding(crate::specs::Lookup::loop_at))]
pub fn loop_at<'a>(scope: &Scope<'a>, offset: u32) -> Result<Local, NoMemory>
    ensures { IfOk result (λ x. x ≡ lookup.loop_at scope.now offset) }
{
    match scope.loops.place(offset) {
        Some(place) => Ok(Local(number_from(scope.first_loop, place)?)),
        None => Ok(Local(scope.first_loop)),
    }
}

/// What the call asks for whose name `require` stands at this offset.
#[tactic(auto, unfolding(crate::specs::Lookup::dependency_at))]
pub fn dependency_at<'s, 'a>(scope: &'s Scope<'a>, offset: u32) -> Option<&'s Dependency>
    ensures { option_copied result ≡ lookup.dependency_at scope.now offset }
{
    match scope.required.place(offset) {
        Some(place) => scope.dependencies.as_slice().get(place),
        None => None,
    }
}
