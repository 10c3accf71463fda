//! Profiles read from bytes.
ghost use Rattle.std.specs.Prelude.{◌≡◌, ◌↔◌, IfOk, IsTrue, map, option_map};
ghost use Rattle.mdg_profile.specs.Distinct.{HasDistinctEntries, SameName};
ghost use Rattle.mdg_profile.specs.Format.{Answers, HasCause, HasOneAnswer};
ghost use Rattle.mdg_profile.specs.Listed.{EntriesCause, HasVersion, IsListed, ListingCause, ValueCause};
ghost use Rattle.serde_json.specs.View.{view};

use crate::form::{entry_of, has_only, list_at};
use crate::refusal::EntryFault;
use crate::{Entry, Profile, ProfileRefusal};
use mdg_base::{Items, Text};
use serde_json::Value;
use std::alloc::Global;

// The value of JSON that the bytes are.
fn value_of(alloc: Global, bytes: &[u8]) -> Result<Value, ProfileRefusal>
    ensures { ValueCause bytes.now result }
{
    match Value::from_slice(alloc, bytes) {
        Ok(value) => Ok(value),
        Err(fault) if fault.is_memory() => Err(ProfileRefusal::NoMemory),
        Err(_) => Err(ProfileRefusal::NotJson),
    }
}

// Whether it is the number of the version.
fn has_version(value: &Value) -> bool
    ensures { IsTrue result ↔ HasVersion (view value.now) }
{
    value.get("version").and_then(Value::as_u64) == Some(1)
}

// The values that a profile lists.
fn listed(value: &Value) -> Option<&[Value]>
    ensures { ListingCause (view value.now) (option_map (λ list. map view list.now) result) }
{
    if !has_only(value, &["version", "entries"]) {
        return None;
    }
    if !has_version(value) {
        return None;
    }
    list_at(value, "entries")
}

fn same_member(one: &Option<Text>, other: &Option<Text>) -> bool
    ensures { IsTrue result ↔ (one.now ≡ other.now) }
{
    match (one, other) {
        (Some(one), Some(other)) => one.as_str() == other.as_str(),
        (None, None) => true,
        _ => false,
    }
}

fn same_name(one: &Entry, other: &Entry) -> bool
    ensures { IsTrue result ↔ SameName one.now other.now }
{
    one.home == other.home
        && one.name.as_str() == other.name.as_str()
        && same_member(&one.member, &other.member)
}

// Whether an entry has the name.
fn is_listed(entries: &[Entry], entry: &Entry) -> bool
    ensures { IsTrue result ↔ IsListed entries.now entry.now }
{
    entries.iter().any(|other| same_name(other, entry))
}

// The entries that the values are.
fn entries_of(alloc: Global, values: &[Value]) -> Result<Items<Entry>, ProfileRefusal>
    ensures { EntriesCause (map view values.now) result }
{
    let mut entries = Items::create(alloc);
    for (index, value) in values.iter().enumerate() {
        let entry = match entry_of(alloc, value) {
            Ok(entry) => entry,
            Err(EntryFault::OutOfForm) => return Err(ProfileRefusal::BadMember(index as u64)),
            Err(EntryFault::NoMemory) => return Err(ProfileRefusal::NoMemory),
        };
        if is_listed(entries.as_slice(), &entry) {
            return Err(ProfileRefusal::RepeatedName(index as u64));
        }
        entries.push(entry)?;
    }
    Ok(entries)
}

fn profile_of(alloc: Global, bytes: &[u8]) -> Result<Profile, ProfileRefusal>
    ensures { HasCause bytes.now result }
{
    let value = value_of(alloc, bytes)?;
    let Some(values) = listed(&value) else {
        return Err(ProfileRefusal::NotProfile);
    };
    let entries = entries_of(alloc, values)?;
    Ok(Profile { entries })
}

/// The profile that the bytes are, an object of JSON (docs/PROFILE.md has its form).
///
/// `NotJson` comes where the bytes are no UTF-8, or are no JSON that nests at most 127 deep. Else `NotProfile`
/// comes where the value isn't an object of exactly `version`, the number 1, and `entries`, an array. Else the
/// first entry that is out of form, or repeats the home, name and member of an earlier one, is refused as
/// `BadMember` or `RepeatedName` with its number, from 0. So no two entries have the same home, name and member.
pub fn read_profile(alloc: Global, bytes: &[u8]) -> Result<Profile, ProfileRefusal>
    ensures cause { HasCause bytes.now result }
    ensures answers { Answers bytes.now result }
    ensures distinct { IfOk result HasDistinctEntries }
{
    profile_of(alloc, bytes)
}

/// The law of profiles: bytes have at most one answer but want of memory.
pub fn law_read_profile()
    ensures { HasOneAnswer }
{}
