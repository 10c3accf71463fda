//! The globals and modules that drafts name, and their members.

ghost use Rattle.std.specs.Prelude.{◌≡◌, ◌++◌, ◌∷◌, [], length, find, IfOk, OnOk};
ghost use Rattle.std.specs.Option.{option_copied};
ghost use Rattle.mdg_lower.specs.SharedNames as known;
ghost use Rattle.mdg_lower.specs.SharedRows as sharing;

use crate::column::counted;
use crate::draft::{Draft, DraftLine};
use crate::shared::names::{SharedName, SharedNames};
use mdg_base::{Home, Items, Kind, NoMemory, SharedId, Text};
use mdg_code::SharedRow;
use mdg_profile::Entry;
use std::alloc::Global;

fn is_home(one: Home, other: Home) -> bool
    ensures { result ≡ sharing.is_home one other }
{
    match one {
        Home::Global => matches!(other, Home::Global),
        Home::Module => matches!(other, Home::Module),
    }
}

/// Puts the global or the module after the others, unless it was seen.
fn add_shared_name<'a>(
    bases: &mut Items<SharedName>,
    seen: &mut SharedNames<'a>,
    alloc: Global,
    home: Home,
    name: &'a str,
) -> Result<(), NoMemory>
    ensures bases { OnOk result (seen.old ≡ known.seen_in bases.old → bases.new ≡ sharing.add_shared_name bases.old
        (record { home = home; name = name.now })) }
    ensures seen { OnOk result (seen.old ≡ known.seen_in bases.old → seen.new ≡ known.seen_in bases.new) }
{
    if seen.add(home, name)? {
        bases.push(SharedName {
            home,
            name: Text::of(alloc, name)?,
        })?;
    }
    Ok(())
}

fn put_draft<'a>(
    bases: &mut Items<SharedName>,
    seen: &mut SharedNames<'a>,
    alloc: Global,
    draft: &'a Draft,
) -> Result<(), NoMemory>
    ensures bases { OnOk result (seen.old ≡ known.seen_in bases.old → bases.new ≡ sharing.add_shared_names bases.old
        (sharing.shared_name_in draft.now)) }
    ensures seen { OnOk result (seen.old ≡ known.seen_in bases.old → seen.new ≡ known.seen_in bases.new) }
{
    match draft {
        Draft::Shared { home, name, .. } => add_shared_name(
            bases,
            seen,
            alloc,
            *home,
            name.as_str(),
        ),
        Draft::Complete(_) | Draft::Get { .. } | Draft::Set { .. } | Draft::Branch { .. } => Ok(()),
    }
}

/// The globals and modules that drafts name, each once, by their first draft.
#[tactic(auto, using(crate::proofs::SharedRowLemmas::add_shared_names_append), unfolding(crate::specs::SharedRows::shared_names_in))]
fn bases_of(alloc: Global, lines: &[DraftLine]) -> Result<Items<SharedName>, NoMemory>
    ensures { IfOk result (λ b. b ≡ sharing.shared_names_in lines.now) }
{
    let mut seen = SharedNames::create(alloc);
    let mut bases = Items::create(alloc);
    for line in lines {
        put_draft(&mut bases, &mut seen, alloc, &line.draft)?;
    }
    Ok(bases)
}

fn is_about(base: &SharedName, entry: &Entry) -> bool
    ensures { result ≡ sharing.is_about base.now entry.now }
{
    is_home(base.home, entry.home) && base.name.as_str() == entry.name.as_str()
}

fn is_entry_of(base: &SharedName, entry: &Entry) -> bool
    ensures { result ≡ sharing.is_entry_of base.now entry.now }
{
    entry.member.is_none() && is_about(base, entry)
}

fn is_member_of(base: &SharedName, entry: &Entry) -> bool
    ensures { result ≡ sharing.is_member_of base.now entry.now }
{
    entry.member.is_some() && is_about(base, entry)
}

fn copy_numbers(alloc: Global, all: &[u32]) -> Result<Items<u32>, NoMemory>
    ensures { IfOk result (λ t. t ≡ all.now) }
{
    let copied = Vec::from_slice(alloc, all)?;
    Ok(Items::from_vec(copied))
}

fn copy_kind(alloc: Global, kind: &Kind) -> Result<Kind, NoMemory>
    ensures { IfOk result (λ k. k ≡ kind.now) }
{
    match kind {
        Kind::Sink(arguments) => Ok(Kind::Sink(copy_numbers(alloc, arguments.as_slice())?)),
        Kind::Quiet => Ok(Kind::Quiet),
        Kind::Active => Ok(Kind::Active),
    }
}

fn copy_name(alloc: Global, name: &Option<Text>) -> Result<Option<Text>, NoMemory>
    ensures { IfOk result (λ n. n ≡ name.now) }
{
    match name {
        Some(text) => Ok(Some(Text::of(alloc, text.as_str())?)),
        None => Ok(None),
    }
}

/// The entry of the base itself.
fn entry_of<'a>(entries: &'a [Entry], base: &SharedName) -> Option<&'a Entry>
    ensures { option_copied result ≡ find (sharing.is_entry_of base.now) entries.now }
{
    entries.iter().find(|entry| is_entry_of(base, entry))
}

fn kind_of(alloc: Global, entries: &[Entry], base: &SharedName) -> Result<Kind, NoMemory>
    ensures { IfOk result (λ k. k ≡ sharing.kind_of entries.now base.now) }
{
    match entry_of(entries, base) {
        Some(entry) => copy_kind(alloc, &entry.kind),
        None => Ok(Kind::Active),
    }
}

fn base_row(
    alloc: Global,
    entries: &[Entry],
    number: SharedId,
    base: &SharedName,
) -> Result<SharedRow, NoMemory>
    ensures { IfOk result (λ r. r ≡ sharing.base_row entries.now number.0 base.now) }
{
    Ok(SharedRow {
        home: base.home,
        name: Text::of(alloc, base.name.as_str())?,
        member: None,
        kind: kind_of(alloc, entries, base)?,
        base: number,
    })
}

fn member_row(alloc: Global, number: SharedId, entry: &Entry) -> Result<SharedRow, NoMemory>
    ensures { IfOk result (λ r. r ≡ sharing.member_row number.0 entry.now) }
{
    Ok(SharedRow {
        home: entry.home,
        name: Text::of(alloc, entry.name.as_str())?,
        member: copy_name(alloc, &entry.member)?,
        kind: copy_kind(alloc, &entry.kind)?,
        base: number,
    })
}

fn put_member(
    rows: &mut Items<SharedRow>,
    alloc: Global,
    number: SharedId,
    base: &SharedName,
    entry: &Entry,
) -> Result<(), NoMemory>
    ensures { OnOk result (rows.new ≡ rows.old ++ sharing.member_rows number.0 base.now (entry.now ∷ [])) }
{
    if is_member_of(base, entry) {
        rows.push(member_row(alloc, number, entry)?)?;
    }
    Ok(())
}

fn put_members(
    rows: &mut Items<SharedRow>,
    alloc: Global,
    number: SharedId,
    base: &SharedName,
    entries: &[Entry],
) -> Result<(), NoMemory>
    ensures { OnOk result (rows.new ≡ rows.old ++ sharing.member_rows number.0 base.now entries.now) }
{
    for entry in entries {
        put_member(rows, alloc, number, base, entry)?;
    }
    Ok(())
}

/// Puts the row of the base after the others, and then those of its members.
fn put_base(
    rows: &mut Items<SharedRow>,
    alloc: Global,
    entries: &[Entry],
    base: &SharedName,
) -> Result<(), NoMemory>
    ensures { OnOk result (rows.new ≡ rows.old ++ sharing.base_rows entries.now (length rows.old) base.now) }
{
    let number = SharedId(counted(rows.as_slice().len())?);
    rows.push(base_row(alloc, entries, number, base)?)?;
    put_members(rows, alloc, number, base, entries)
}

fn rows_of(
    alloc: Global,
    entries: &[Entry],
    bases: &[SharedName],
) -> Result<Items<SharedRow>, NoMemory>
    ensures { IfOk result (λ r. r ≡ sharing.rows_of entries.now 0 bases.now) }
{
    let mut rows = Items::create(alloc);
    for base in bases {
        put_base(&mut rows, alloc, entries, base)?;
    }
    Ok(rows)
}

/// The rows of the globals and modules that drafts name, by their first draft, each followed by its
/// members in the order of the profile's entries.
#[tactic(auto, unfolding(crate::specs::SharedRows::shared_in))]
pub fn shared_rows(
    alloc: Global,
    entries: &[Entry],
    lines: &[DraftLine],
) -> Result<Items<SharedRow>, NoMemory>
    ensures { IfOk result (λ r. r ≡ sharing.shared_in entries.now lines.now) }
{
    let bases = bases_of(alloc, lines)?;
    rows_of(alloc, entries, bases.as_slice())
}
