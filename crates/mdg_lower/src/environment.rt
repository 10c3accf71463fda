//! What the names and offsets of a file stand for, in each of its functions.

ghost use Rattle.std.specs.Prelude.{◌≡◌, ◌+◌, ◌++◌, ◌∷◌, [], OnOk, IfOk, map, length, slice_get, if◌then◌else◌};
ghost use Rattle.mdg_scope.specs.Resolution.{globals_from, is_global};
ghost use Rattle.mdg_scope.specs.Names.{add_name};
ghost use Rattle.mdg_lower.specs.Columns.{add_names};
ghost use Rattle.mdg_lower.specs.Environment as environment;
ghost use Rattle.mdg_lower.specs.Offsets.{add_offsets};

use crate::column::counted;
use crate::lookup::{increment, number_from};
use crate::offsets::OffsetTable;
use crate::scope::{Bindings, Dependency, Scope};
use mdg_base::{CellId, FileId, FunId, Items, NoMemory, Text};
use mdg_profile::Profile;
use mdg_scope::{Bound, BoundFunction, Goal, Names, Require, globals};
use std::alloc::Global;

fn add_each<'a>(table: &mut Names<'a>, names: &'a [Text]) -> Result<(), NoMemory>
    ensures { OnOk result (table.new ≡ add_names table.old names.now) }
{
    for name in names {
        table.add(name.as_str())?;
    }
    Ok(())
}

fn locals_of<'a>(alloc: Global, function: &'a BoundFunction) -> Result<Names<'a>, NoMemory>
    ensures { IfOk result (λ t. t ≡ add_names (add_names [] function.now.parameters) function.now.locals) }
{
    let mut table = Names::create(alloc);
    add_each(&mut table, function.parameters.as_slice())?;
    add_each(&mut table, function.locals.as_slice())?;
    Ok(table)
}

fn cells_of<'a>(alloc: Global, function: &'a BoundFunction) -> Result<Names<'a>, NoMemory>
    ensures { IfOk result (λ t. t ≡ add_names [] function.now.cells) }
{
    let mut table = Names::create(alloc);
    add_each(&mut table, function.cells.as_slice())?;
    Ok(table)
}

fn own_of<'a>(alloc: Global, function: &'a BoundFunction) -> Result<Names<'a>, NoMemory>
    ensures { IfOk result (λ t. t ≡ environment.own_names function.now.own_name function.now.name) }
{
    let mut table = Names::create(alloc);
    if function.own_name {
        if let Some(name) = &function.name {
            table.add(name.as_str())?;
        }
    }
    Ok(table)
}

fn bindings_of<'a>(
    alloc: Global,
    cell: u32,
    function: &'a BoundFunction,
) -> Result<Bindings<'a>, NoMemory>
    ensures { IfOk result (λ f. f ≡ environment.bindings_of cell function.now) }
{
    Ok(Bindings {
        locals: locals_of(alloc, function)?,
        cells: cells_of(alloc, function)?,
        own: own_of(alloc, function)?,
        first_cell: cell,
        parent: function.parent,
    })
}

#[tactic(auto, using(crate::proofs::Drops::drops))]
fn bindings_from<'a>(
    alloc: Global,
    cell: u32,
    functions: &'a [BoundFunction],
) -> Result<Items<Bindings<'a>>, NoMemory>
    ensures { IfOk result (λ fs. fs ≡ environment.bindings_from cell functions.now) }
{
    let mut made = Items::create(alloc);
    let mut next = cell;
    for function in functions {
        made.push(bindings_of(alloc, next, function)?)?;
        next = number_from(next, function.cells.as_slice().len())?;
    }
    Ok(made)
}

/// The cell after those of the functions, the first of which has this number.
#[tactic(auto, using(crate::proofs::Drops::drops))]
pub fn after_cells(cell: u32, functions: &[BoundFunction]) -> Result<u32, NoMemory>
    ensures { IfOk result (λ n. n ≡ cell + environment.cells_of functions.now) }
{
    let mut next = cell;
    for function in functions {
        next = number_from(next, function.cells.as_slice().len())?;
    }
    Ok(next)
}

/// The cell of the module object of each file.
#[tactic(auto, using(crate::proofs::Drops::drops))]
pub fn modules_of(alloc: Global, files: &[Bound]) -> Result<Items<CellId>, NoMemory>
    ensures { IfOk result (λ ms. ms ≡ environment.modules_from 0 files.now) }
{
    let mut made = Items::create(alloc);
    let mut next = 0;
    for file in files {
        made.push(CellId(next))?;
        next = after_cells(increment(next)?, file.functions.as_slice())?;
    }
    Ok(made)
}

fn keywords_of(alloc: Global, functions: &[BoundFunction]) -> Result<OffsetTable, NoMemory>
    ensures { IfOk result (λ t. t ≡ add_offsets [] (map (λ f. f.offset) functions.now)) }
{
    let mut table = OffsetTable::create(alloc);
    for function in functions {
        table.add(function.offset)?;
    }
    Ok(table)
}

fn requires_of(alloc: Global, required: &[Require]) -> Result<OffsetTable, NoMemory>
    ensures { IfOk result (λ t. t ≡ add_offsets [] (map (λ r. r.offset) required.now)) }
{
    let mut table = OffsetTable::create(alloc);
    for one in required {
        table.add(one.offset)?;
    }
    Ok(table)
}

fn dependency_file(
    alloc: Global,
    modules: &[CellId],
    text: &Text,
    file: FileId,
) -> Result<Dependency, NoMemory>
    ensures { IfOk result (λ w. w ≡ environment.dependency_file text.now file (slice_get modules.now file.0)) }
{
    match modules.get(file.0 as usize) {
        Some(cell) => Ok(Dependency::File(file, *cell)),
        None => Ok(Dependency::Module(Text::of(alloc, text.as_str())?)),
    }
}

fn dependency_of(alloc: Global, modules: &[CellId], one: &Require) -> Result<Dependency, NoMemory>
    ensures { IfOk result (λ w. w ≡ environment.dependency_of modules.now one.now) }
{
    match one.goal {
        Goal::Bare | Goal::Path => Ok(Dependency::Module(Text::of(alloc, one.text.as_str())?)),
        Goal::File(file) => dependency_file(alloc, modules, &one.text, file),
    }
}

#[tactic(auto, using(crate::proofs::Drops::drops))]
fn dependencies_of(
    alloc: Global,
    modules: &[CellId],
    required: &[Require],
) -> Result<Items<Dependency>, NoMemory>
    ensures { IfOk result (λ ws. ws ≡ map (environment.dependency_of modules.now) required.now) }
{
    let mut made = Items::create(alloc);
    for one in required {
        made.push(dependency_of(alloc, modules, one)?)?;
    }
    Ok(made)
}

/// What the names and offsets of a file stand for, before any of its functions is entered. The numbers are
/// those of the file, of its body, and of its first cell.
#[tactic(auto, unfolding(crate::specs::Environment::file_scope))]
pub fn file_scope<'a>(
    alloc: Global,
    modules: &[CellId],
    profile: &'a Profile,
    file: u32,
    function: u32,
    cell: u32,
    bound: &'a Bound,
) -> Result<Scope<'a>, NoMemory>
    ensures { IfOk result (λ s. s ≡ environment.file_scope modules.now profile.now.entries file function cell bound.now) }
{
    Ok(Scope {
        file: FileId(file),
        module: CellId(cell),
        globals: globals(alloc, profile.entries.as_slice())?,
        first_function: function,
        all_bindings: bindings_from(alloc, increment(cell)?, bound.functions.as_slice())?,
        functions: keywords_of(alloc, bound.functions.as_slice())?,
        required: requires_of(alloc, bound.required.as_slice())?,
        dependencies: dependencies_of(alloc, modules, bound.required.as_slice())?,
        number: 0,
        function: FunId(function),
        loops: OffsetTable::create(alloc),
        first_loop: 0,
        temporaries: 0,
    })
}

/// Enters the function with this number. Its locals are its parameters, its other names, one for each of
/// the loops, and then temporaries.
#[tactic(auto, unfolding(crate::specs::Environment::entered))]
pub fn enter<'a>(
    scope: &mut Scope<'a>,
    number: u32,
    function: &BoundFunction,
    loops: OffsetTable,
) -> Result<(), NoMemory>
    ensures { OnOk result (scope.new ≡ environment.entered number function.now loops scope.old) }
{
    let parameters = counted(function.parameters.as_slice().len())?;
    let first_loop = number_from(parameters, function.locals.as_slice().len())?;
    let temporaries = number_from(first_loop, loops.len())?;
    let Some(entered) = scope.first_function.checked_add(number) else {
        return Err(NoMemory);
    };
    scope.number = number;
    scope.function = FunId(entered);
    scope.loops = loops;
    scope.first_loop = first_loop;
    scope.temporaries = temporaries;
    Ok(())
}
