//! Drafts become statements: names get their columns, and shared things their numbers.

ghost use Rattle.std.specs.Prelude.{◌≡◌, List, map, [], IfOk};
ghost use Rattle.mdg_code.specs.declared.code.SharedRow.{SharedRow};
ghost use Rattle.mdg_lower.specs.Columns.{add_names};
ghost use Rattle.mdg_lower.specs.Link as links;
ghost use Rattle.mdg_lower.specs.SharedTable.{IsTableOf};

use crate::column::{ColumnTable, column_names};
use crate::draft::{Draft, DraftLine, Label};
use crate::shared::rows::shared_rows;
use crate::shared::table::SharedTable;
use mdg_base::{Items, NoMemory, Site, Text};
use mdg_code::{Line, SharedRow, Statement};
use mdg_profile::Profile;
use std::alloc::Global;

/// The statements that drafts become, and the tables that these refer to.
#[derive(Debug, Drop)]
pub struct Linked {
    pub lines: Items<Line>,

    /// The static property names, by column.
    pub columns: Items<Text>,

    /// The shared things, by number.
    pub shared: Items<SharedRow>,
}

fn site_of(label: Label) -> Site
    ensures { result ≡ links.site_of label }
{
    match label {
        Label::Site(site) => site,
        Label::Break | Label::Continue => Site(0),
    }
}

fn linked_statement<'a>(
    columns: &ColumnTable<'a>,
    shared: &SharedTable<'a>,
    draft: Draft,
) -> Result<Statement, NoMemory>
    ensures { (rows : List SharedRow) → IsTableOf rows shared.now → IfOk result
        (λ s. s ≡ links.linked_statement columns.now rows draft) }
{
    match draft {
        Draft::Complete(statement) => Ok(statement),
        Draft::Get { into, of, name } => {
            let column = columns.column(name.as_str())?;
            Ok(Statement::Get {
                into,
                of,
                name,
                column,
            })
        }
        Draft::Set { of, name, value } => {
            let column = columns.column(name.as_str())?;
            Ok(Statement::Set {
                of,
                name,
                column,
                value,
            })
        }
        Draft::Shared { into, home, name } => {
            let shared = shared.number(home, name.as_str());
            Ok(Statement::Shared { into, shared })
        }
        Draft::Branch { left, right } => Ok(Statement::Branch {
            left: site_of(left),
            right: site_of(right),
        }),
    }
}

fn linked_line<'a>(
    columns: &ColumnTable<'a>,
    shared: &SharedTable<'a>,
    line: DraftLine,
) -> Result<Line, NoMemory>
    ensures { (rows : List SharedRow) → IsTableOf rows shared.now → IfOk result
        (λ l. l ≡ links.linked_line columns.now rows line) }
{
    let DraftLine {
        draft,
        place,
        function,
    } = line;
    Ok(Line {
        statement: linked_statement(columns, shared, draft)?,
        place,
        function,
    })
}

fn linked_lines(
    alloc: Global,
    columns: &[Text],
    shared: &[SharedRow],
    drafts: Vec<DraftLine>,
) -> Result<Items<Line>, NoMemory>
    ensures { IfOk result (λ ls. ls ≡ map (links.linked_line (add_names [] columns.now) shared.now) drafts.items) }
{
    let table = ColumnTable::of(alloc, columns)?;
    let numbers = SharedTable::of(alloc, shared)?;
    let mut lines = Items::create(alloc);
    for line in drafts {
        lines.push(linked_line(&table, &numbers, line)?)?;
    }
    Ok(lines)
}

/// The statements that the drafts become under a profile. Each property name that is no plain numeral
/// above 15 has a column, by its first draft; each global and each module that a draft names is a shared
/// thing, by its first draft, and so are the members that the profile lists of it. A branch that was
/// never resolved goes to site 0.
#[tactic(auto, using(crate::proofs::ColumnLemmas::columns_again), unfolding(crate::specs::Link::linked))]
pub fn link(alloc: Global, drafts: Vec<DraftLine>, profile: &Profile) -> Result<Linked, NoMemory>
    ensures { IfOk result (λ s. s ≡ links.linked profile.now.entries drafts.items) }
{
    let columns = column_names(alloc, drafts.as_slice())?;
    let shared = shared_rows(alloc, profile.entries.as_slice(), drafts.as_slice())?;
    let lines = linked_lines(alloc, columns.as_slice(), shared.as_slice(), drafts)?;
    Ok(Linked {
        lines,
        columns,
        shared,
    })
}
