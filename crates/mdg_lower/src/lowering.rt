//! The lowering of a package.

ghost use Rattle.std.specs.Prelude.{◌≡◌, ◌↔◌, [], IfOk, IsTrue};
ghost use Rattle.mdg_lower.specs.Answers.{IsAnswer};
ghost use Rattle.mdg_code.specs.Validity.{IsValid};
ghost use Rattle.mdg_lower.specs.Tables as lowerings;
ghost use Rattle.mdg_lower.specs.BoundFiles.{AreBound};
ghost use Rattle.mdg_lower.specs.TableUpdates.{lowering_of};

use crate::draft::DraftLine;
use crate::environment::modules_of;
use crate::link::{Linked, link};
use crate::refusal::LowerRefusal;
use crate::tables::{Tables, lower_files, no_tables};
use mdg_base::NoMemory;
use mdg_code::{Code, is_counted};
use mdg_profile::Profile;
use mdg_scope::Bound;
use std::alloc::Global;

const SITE_LIMIT: usize = 32768;

const NAME_LIMIT: usize = 2048;

/// The drafts of a package, and the tables of its functions, cells and files.
#[derive(Drop)]
struct PackageLowering {
    lines: Vec<DraftLine>,
    tables: Tables,
}

#[tactic(auto, unfolding(crate::specs::Tables::lowering, crate::specs::TableUpdates::Updates))]
fn lower_package(
    alloc: Global,
    files: &[Bound],
    profile: &Profile,
) -> Result<PackageLowering, NoMemory>
    ensures { IfOk result (λ f. lowering_of f.lines.items f.tables ≡ lowerings.lowering files.now profile.now) }
{
    let modules = modules_of(alloc, files)?;
    let mut lines = Vec::new(alloc);
    let mut tables = no_tables(alloc);
    lower_files(
        &mut lines,
        &mut tables,
        alloc,
        modules.as_slice(),
        profile,
        files,
    )?;
    Ok(PackageLowering { lines, tables })
}

fn code_of(linked: Linked, tables: Tables) -> Code
    ensures { result ≡ lowerings.code_of linked tables }
{
    Code {
        lines: linked.lines,
        functions: tables.functions,
        cells: tables.cells,
        files: tables.files,
        columns: linked.columns,
        shared: linked.shared,
    }
}

/// The statements that a package's files become under a profile.
///
/// The files stand in the order of their numbers, each with its bindings under that profile, and its
/// requires with the files of the package that they ask for. `TooManySites` comes exactly where there are
/// more than 32,768 statements, and else `TooManyNames` exactly where there are more than 2,048 static
/// property names; each carries the whole count. The code is valid where there is a file, each file is what
/// `bind` gives for its path and tree, but for the goals of its requires, and no two entries of the profile
/// have the same home, name and member.
#[tactic(auto, using(crate::proofs::AnswerLemmas::lowerings))]
pub fn lower(alloc: Global, files: &[Bound], profile: &Profile) -> Result<Code, LowerRefusal>
    ensures answer { IsAnswer files.now profile.now result }
    ensures valid { IfOk result (λ code. AreBound files.now profile.now → IsValid code) }
{
    let PackageLowering { lines, tables } = lower_package(alloc, files, profile)?;
    let sites = lines.len();
    if sites > SITE_LIMIT {
        return Err(LowerRefusal::TooManySites(sites as u64));
    }
    let code = code_of(link(alloc, lines, profile)?, tables);
    let names = code.columns.as_slice().len();
    if names > NAME_LIMIT {
        return Err(LowerRefusal::TooManyNames(names as u64));
    }
    if !is_counted(&code) {
        return Err(LowerRefusal::NoMemory);
    }
    Ok(code)
}
