//! The goals of the requires of a file.
ghost use Rattle.std.specs.Prelude.{[]};
ghost use Rattle.mdg_pack.specs.Effects.{Answers, IsSound, Saw, Stays, folder_view};
ghost use Rattle.mdg_base.specs.Segments.{folder_of};
ghost use Rattle.mdg_pack.specs.RequireGoals.{resolved_goal, resolved_requires};

use crate::PackFault;
use crate::candidates::candidates_in_file;
use crate::module_resolution::resolve;
use crate::module_table::ModuleTable;
use mdg_base::{FileId, Items};
use mdg_port::Folder;
use mdg_scope::{Goal, Require};
use std::alloc::Global;

// The goal of a require that stands in the file at a path.
fn resolve_require<F: Folder>(
    alloc: Global,
    folder: &mut F,
    table: &mut ModuleTable,
    path: &str,
    require: &Require,
) -> Result<Goal, PackFault>
    requires sound { IsSound table.old }
    requires saw { Saw (F.held folder.old) table.old }
    ensures stays { Stays (folder_view (F.held folder.old) (F.reads folder.old) (F.faults folder.old))
        (folder_view (F.held folder.new) (F.reads folder.new) (F.faults folder.new)) }
    ensures answers { Answers
        (λ given. resolved_goal given (folder_of path.now) require.now require.now.goal table.old)
        (folder_view (F.held folder.old) (F.reads folder.old) (F.faults folder.old))
        (folder_view (F.held folder.new) (F.reads folder.new) (F.faults folder.new)) table.old table.new result }
{
    match require.goal {
        Goal::Bare => Ok(Goal::Bare),
        Goal::File(file) => Ok(Goal::File(file)),
        Goal::Path => {
            let candidates = candidates_in_file(alloc, path, require.text.as_str())?;
            let number = resolve(alloc, folder, table, candidates.as_slice())?;
            Ok(Goal::File(FileId(number)))
        }
    }
}

/// The requires of the file at a path, each with its goal. They are resolved in their order.
pub fn resolve_requires<F: Folder>(
    alloc: Global,
    folder: &mut F,
    table: &mut ModuleTable,
    path: &str,
    required: &[Require],
) -> Result<Items<Require>, PackFault>
    requires sound { IsSound table.old }
    requires saw { Saw (F.held folder.old) table.old }
    ensures stays { Stays (folder_view (F.held folder.old) (F.reads folder.old) (F.faults folder.old))
        (folder_view (F.held folder.new) (F.reads folder.new) (F.faults folder.new)) }
    ensures answers { Answers (λ given. resolved_requires given (folder_of path.now) [] required.now table.old)
        (folder_view (F.held folder.old) (F.reads folder.old) (F.faults folder.old))
        (folder_view (F.held folder.new) (F.reads folder.new) (F.faults folder.new)) table.old table.new result }
{
    let mut done = Items::create(alloc);
    for require in required {
        let goal = resolve_require(alloc, folder, table, path, require)?;
        done.push(Require {
            offset: require.offset,
            line: require.line,
            text: require.text.copy(alloc)?,
            goal,
        })?;
    }
    Ok(done)
}
