//! The files of a package are lowered function by function, and their tables grow beside the lines.

ghost use Rattle.std.specs.Prelude.{◌≡◌, ◌+◌, ◌++◌, ◌∷◌, [], Some, None, IfOk, OnOk, map, length, drop, option_map};
ghost use Rattle.mdg_lower.specs.Tables as lowerings;
ghost use Rattle.mdg_lower.specs.Offsets.{add_offsets};
ghost use Rattle.mdg_lower.specs.TableUpdates.{SameFile, Updates};

use crate::builder::here;
use crate::column::counted;
use crate::draft::DraftLine;
use crate::environment::{enter, file_scope};
use crate::frame_size::size_for_lines;
use crate::function::{file_lines, function_lines};
use crate::lookup::{increment, number_from};
use crate::nested::{functions_in, loops_in};
use crate::reference::keyword_at;
use crate::scope::Scope;
use mdg_base::{CellId, FunId, Items, NoMemory, Place, Site, Text};
use mdg_code::{FileRow, FunctionRow};
use mdg_profile::Profile;
use mdg_scope::{Bound, BoundFunction};
use mdg_tree::{At, Function, Stmt};
use std::alloc::Global;

/// The functions, cells and files so far.
#[derive(Drop)]
pub struct Tables {
    pub functions: Items<FunctionRow>,
    pub cells: Items<FunId>,
    pub files: Items<FileRow>,
}

/// No functions, cells and files.
pub fn no_tables(alloc: Global) -> Tables
    ensures { result ≡ lowerings.no_tables }
{
    Tables {
        functions: Items::create(alloc),
        cells: Items::create(alloc),
        files: Items::create(alloc),
    }
}

fn copy_name(alloc: Global, name: &Option<Text>) -> Result<Option<Text>, NoMemory>
    ensures { IfOk result (λ n. n ≡ name.now) }
{
    match name {
        Some(text) => Ok(Some(Text::of(alloc, text.as_str())?)),
        None => Ok(None),
    }
}

fn copy_names(alloc: Global, names: &[Text]) -> Result<Items<Text>, NoMemory>
    ensures { IfOk result (λ n. n ≡ names.now) }
{
    let mut made = Items::create(alloc);
    for name in names {
        made.push(Text::of(alloc, name.as_str())?)?;
    }
    Ok(made)
}

fn parent_of(first: u32, parent: Option<u32>) -> Result<Option<FunId>, NoMemory>
    ensures { IfOk result (λ p. p ≡ lowerings.parent_of first parent) }
{
    match parent {
        Some(number) => {
            let Some(function) = first.checked_add(number) else {
                return Err(NoMemory);
            };
            Ok(Some(FunId(function)))
        }
        None => Ok(None),
    }
}

/// The row of a function with these lines from a site on.
fn function_row<'a>(
    alloc: Global,
    scope: &Scope<'a>,
    function: &BoundFunction,
    at: At,
    site: u32,
    lines: &[DraftLine],
) -> Result<FunctionRow, NoMemory>
    ensures { IfOk result (λ r. r ≡ lowerings.function_row scope.now function.now at site lines.now) }
{
    Ok(FunctionRow {
        name: copy_name(alloc, &function.name)?,
        place: Place {
            file: scope.file,
            line: at.line,
            offset: at.offset,
        },
        parameters: copy_names(alloc, function.parameters.as_slice())?,
        locals: size_for_lines(scope.temporaries, lines)?,
        entry: Site(site),
        end: Site(number_from(site, lines.len())?.saturating_sub(1)),
        parent: parent_of(scope.first_function, function.parent)?,
    })
}

/// The function owns a cell for each of the names.
fn add_cells(cells: &mut Items<FunId>, function: FunId, names: &[Text]) -> Result<(), NoMemory>
    ensures { OnOk result (cells.new ≡ cells.old ++ lowerings.owned function names.now) }
{
    for _name in names {
        cells.push(function)?;
    }
    Ok(())
}

/// The row of a function with these lines from a site on, and its cells.
fn add_function<'a>(
    tables: &mut Tables,
    alloc: Global,
    scope: &Scope<'a>,
    function: &BoundFunction,
    at: At,
    site: u32,
    lines: &[DraftLine],
) -> Result<(), NoMemory>
    ensures { OnOk result (tables.new ≡ lowerings.with_function scope.now function.now at site lines.now tables.old) }
{
    tables
        .functions
        .push(function_row(alloc, scope, function, at, site, lines)?)?;
    add_cells(&mut tables.cells, scope.function, function.cells.as_slice())
}

/// Enters the function with this number, whose body is this.
fn enter_function<'a>(
    scope: &mut Scope<'a>,
    alloc: Global,
    number: u32,
    function: &BoundFunction,
    body: &[Stmt],
) -> Result<(), NoMemory>
    ensures { OnOk result (scope.new ≡ lowerings.in_function scope.old number function.now body.now) }
{
    let loops = loops_in(alloc, body)?;
    enter(scope, number, function, loops)
}

/// The lines from a site on.
fn lines_from(lines: &Vec<DraftLine>, site: u32) -> &[DraftLine]
    ensures { result.now ≡ drop site lines.now.items }
{
    match lines.as_slice().get(site as usize..) {
        Some(part) => part,
        None => &[],
    }
}

/// One more function of a file.
#[tactic(auto, using(crate::proofs::TableLemmas::functions))]
fn lower_function<'a>(
    lines: &mut Vec<DraftLine>,
    tables: &mut Tables,
    scope: &mut Scope<'a>,
    alloc: Global,
    number: u32,
    function: &BoundFunction,
    tree: &Function,
) -> Result<(), NoMemory>
    ensures lowering { OnOk result (Updates
        (lowerings.lower_function scope.old number function.now tree.now)
        lines.old.items tables.old lines.new.items tables.new) }
    ensures scope { OnOk result (scope.new ≡ lowerings.in_function scope.old number function.now tree.now.body) }
{
    enter_function(scope, alloc, number, function, tree.body.as_slice())?;
    let site = here(lines)?;
    function_lines(lines, scope, alloc, function, tree)?;
    add_function(
        tables,
        alloc,
        scope,
        function,
        keyword_at(tree),
        site,
        lines_from(lines, site),
    )
}

/// The body of a file.
#[tactic(auto, using(crate::proofs::TableLemmas::functions))]
fn lower_body<'a>(
    lines: &mut Vec<DraftLine>,
    tables: &mut Tables,
    scope: &mut Scope<'a>,
    alloc: Global,
    function: &BoundFunction,
    bound: &Bound,
) -> Result<(), NoMemory>
    ensures lowering { OnOk result (Updates
        (lowerings.lower_body scope.old function.now bound.now)
        lines.old.items tables.old lines.new.items tables.new) }
    ensures scope { OnOk result (scope.new ≡ lowerings.in_function scope.old 0 function.now bound.now.tree.items) }
{
    enter_function(scope, alloc, 0, function, bound.tree.items.as_slice())?;
    let site = here(lines)?;
    file_lines(
        lines,
        scope,
        alloc,
        bound.tree.at,
        bound.tree.items.as_slice(),
    )?;
    add_function(
        tables,
        alloc,
        scope,
        function,
        bound.tree.at,
        site,
        lines_from(lines, site),
    )
}

/// The functions of a file but for its body, with their trees.
fn lower_nested<'a>(
    lines: &mut Vec<DraftLine>,
    tables: &mut Tables,
    scope: &mut Scope<'a>,
    alloc: Global,
    functions: &[BoundFunction],
    trees: &[&Function],
) -> Result<(), NoMemory>
    ensures { OnOk result (Updates
        (lowerings.lower_nested scope.old 1 functions.now (map (λ t. t.now) trees.now))
        lines.old.items tables.old lines.new.items tables.new) }
{
    let mut number = 1;
    let mut index = 0;
    for tree in trees {
        if index >= functions.len() {
            return Ok(());
        }
        lower_function(lines, tables, scope, alloc, number, &functions[index], tree)?;
        number = increment(number)?;
        index += 1;
    }
    Ok(())
}

/// The row of a file and the cell of its module object.
fn begin_file<'a>(
    tables: &mut Tables,
    alloc: Global,
    scope: &Scope<'a>,
    bound: &Bound,
) -> Result<(), NoMemory>
    ensures { OnOk result (tables.new ≡ lowerings.with_file scope.now bound.now tables.old) }
{
    let body = FunId(scope.first_function);
    tables.cells.push(body)?;
    tables.files.push(FileRow {
        path: Text::of(alloc, bound.path.as_str())?,
        body,
        module: scope.module,
    })?;
    Ok(())
}

/// The body of a file and its other functions.
#[tactic(auto, using(crate::proofs::TableLemmas::file))]
fn lower_functions<'a>(
    lines: &mut Vec<DraftLine>,
    tables: &mut Tables,
    scope: &mut Scope<'a>,
    alloc: Global,
    bound: &Bound,
    body: &BoundFunction,
    nested: &[BoundFunction],
) -> Result<(), NoMemory>
    ensures { OnOk result (Updates
        (lowerings.lower_bound scope.old bound.now (body.now ∷ nested.now))
        lines.old.items tables.old lines.new.items tables.new) }
{
    lower_body(lines, tables, scope, alloc, body, bound)?;
    let trees = functions_in(alloc, bound.tree.items.as_slice())?;
    lower_nested(lines, tables, scope, alloc, nested, trees.as_slice())?;
    Ok(())
}

/// The functions of a file.
fn lower_bound<'a>(
    lines: &mut Vec<DraftLine>,
    tables: &mut Tables,
    scope: &mut Scope<'a>,
    alloc: Global,
    bound: &Bound,
) -> Result<(), NoMemory>
    ensures { OnOk result (Updates
        (lowerings.lower_bound scope.old bound.now bound.now.functions)
        lines.old.items tables.old lines.new.items tables.new) }
{
    match bound.functions.as_slice() {
        [] => Ok(()),
        [body, nested @ ..] => {
            lower_functions(lines, tables, scope, alloc, bound, body, nested)?;
            Ok(())
        }
    }
}

/// The scope of the file that comes next.
fn scope_after<'a>(
    alloc: Global,
    modules: &[CellId],
    profile: &'a Profile,
    tables: &Tables,
    bound: &'a Bound,
) -> Result<Scope<'a>, NoMemory>
    ensures { IfOk result (λ s. s ≡ lowerings.scope_after modules.now profile.now.entries tables.now bound.now) }
{
    let file = counted(tables.files.as_slice().len())?;
    let function = counted(tables.functions.as_slice().len())?;
    let cell = counted(tables.cells.as_slice().len())?;
    file_scope(alloc, modules, profile, file, function, cell, bound)
}

/// One more file.
#[tactic(auto, using(crate::proofs::TableLemmas::files))]
fn lower_file(
    lines: &mut Vec<DraftLine>,
    tables: &mut Tables,
    alloc: Global,
    modules: &[CellId],
    profile: &Profile,
    bound: &Bound,
) -> Result<(), NoMemory>
    ensures { OnOk result (Updates
        (lowerings.lower_file modules.now profile.now.entries bound.now)
        lines.old.items tables.old lines.new.items tables.new) }
{
    let mut scope = scope_after(alloc, modules, profile, tables, bound)?;
    begin_file(tables, alloc, &scope, bound)?;
    lower_bound(lines, tables, &mut scope, alloc, bound)?;
    Ok(())
}

/// The files of a package, one after another.
pub fn lower_files(
    lines: &mut Vec<DraftLine>,
    tables: &mut Tables,
    alloc: Global,
    modules: &[CellId],
    profile: &Profile,
    files: &[Bound],
) -> Result<(), NoMemory>
    ensures { OnOk result (Updates
        (lowerings.lower_files modules.now profile.now.entries files.now)
        lines.old.items tables.old lines.new.items tables.new) }
{
    for bound in files {
        lower_file(lines, tables, alloc, modules, profile, bound)?;
    }
    Ok(())
}
