//! Entries of names whose calls do the same.
ghost use Rattle.std.specs.Prelude.{◌≡◌, ◌++◌, map, IfOk, OnOk, Some, None};
ghost use Rattle.mdg_profile.specs.Listing.{base_entry, group_entries, kind_of, member_entry};

use crate::Entry;
use mdg_base::{Home, Items, Kind, NoMemory, Text};
use std::alloc::Global;

// What the calls of a group of names do.
#[derive(Clone, Copy)]
pub enum Calls {
    // Run or open what the arguments with these numbers say.
    Sink(&'static [u32]),
    Quiet,
    Active,
}

// Names whose calls do the same: globals or modules themselves, or members of one of them.
#[derive(Clone, Copy)]
pub struct Group {
    pub home: Home,
    pub base: Option<&'static str>,
    pub calls: Calls,
    pub names: &'static [&'static str],
}

fn kind_of(alloc: Global, calls: Calls) -> Result<Kind, NoMemory>
    ensures { IfOk result (λ kind. kind ≡ kind_of calls) }
{
    Ok(match calls {
        Calls::Sink(arguments) => Kind::Sink(Items::from_vec(arguments.to_vec(alloc)?)),
        Calls::Quiet => Kind::Quiet,
        Calls::Active => Kind::Active,
    })
}

// Appends the names themselves.
fn add_bases(
    alloc: Global,
    entries: &mut Items<Entry>,
    home: Home,
    calls: Calls,
    names: &[&str],
) -> Result<(), NoMemory>
    ensures { OnOk result (entries.new
        ≡ entries.old ++ map (λ name. base_entry home name.now (kind_of calls)) names.now) }
{
    for name in names {
        entries.push(Entry {
            home,
            name: Text::of(alloc, name)?,
            member: None,
            kind: kind_of(alloc, calls)?,
        })?;
    }
    Ok(())
}

// Appends members of the base.
fn add_members(
    alloc: Global,
    entries: &mut Items<Entry>,
    home: Home,
    base: &str,
    calls: Calls,
    names: &[&str],
) -> Result<(), NoMemory>
    ensures { OnOk result (entries.new
        ≡ entries.old
        ++ map (λ name. member_entry home base.now name.now (kind_of calls)) names.now) }
{
    for name in names {
        entries.push(Entry {
            home,
            name: Text::of(alloc, base)?,
            member: Some(Text::of(alloc, name)?),
            kind: kind_of(alloc, calls)?,
        })?;
    }
    Ok(())
}

// Appends the entries of the group.
pub fn add_group(alloc: Global, entries: &mut Items<Entry>, group: &Group) -> Result<(), NoMemory>
    ensures { OnOk result (entries.new ≡ entries.old ++ group_entries group.now) }
{
    match group.base {
        None => add_bases(alloc, entries, group.home, group.calls, group.names),
        Some(base) => add_members(alloc, entries, group.home, base, group.calls, group.names),
    }
}
