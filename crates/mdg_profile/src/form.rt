//! The entry that a value of JSON is.
ghost use Rattle.std.specs.Prelude.{◌≡◌, ◌≤◌, ◌<◌, ℕ, Some, MatchOption, codes, map, option_and_then, option_map, string_bytes};
ghost use Rattle.std.specs.BTreeMap.{keys};
ghost use Rattle.std.specs.List.{list_all};
ghost use Rattle.mdg_profile.specs.Entries.{IsArguments, IsEntry, IsMember, IsText, home_word};
ghost use Rattle.mdg_profile.specs.Members.{has_only, is_one_of, natural, text_at};
ghost use Rattle.mdg_profile.specs.Parts.{AreNumbers, Finds, IsKind};
ghost use Rattle.serde_json.specs.Find.{as_array, get};
ghost use Rattle.serde_json.specs.View.{items_of, view};

use crate::Entry;
use crate::refusal::EntryFault;
use mdg_base::{Home, Items, Kind, Text};
use serde_json::{Map, Value};
use std::alloc::Global;

fn is_one_of(text: &str, names: &[&str]) -> bool
    ensures { result ≡ is_one_of (map (λ name. name.now) names.now) text.now }
{
    names.contains(&text)
}

// Whether each member has one of these names.
fn are_among(members: &Map<String, Value>, names: &[&str]) -> bool
    ensures { result ≡ list_all (λ key. is_one_of (map (λ name. name.now) names.now) (string_bytes key)) (keys members.now) }
{
    members.keys().all(|key| is_one_of(key.as_str(), names))
}

// Whether it is an object in which no member of another name stands.
#[tactic(auto, using(crate::proofs::Keys::among_keys))]
pub fn has_only(value: &Value, names: &[&str]) -> bool
    ensures { result ≡ has_only (map (λ name. name.now) names.now) (view value.now) }
{
    match value.as_object() {
        Some(members) => are_among(members, names),
        None => false,
    }
}

fn text_at<'v>(value: &'v Value, name: &str) -> Option<&'v str>
    ensures { option_map (λ text. text.now) result ≡ text_at name.now (view value.now) }
{
    value.get(name).and_then(Value::as_str)
}

/// The values of the array that is the value of this member.
pub fn list_at<'v>(value: &'v Value, name: &str) -> Option<&'v [Value]>
    ensures { option_map (λ list. items_of (map view list.now)) result
        ≡ option_and_then as_array (get name.now (view value.now)) }
{
    match value.get(name).and_then(Value::as_array) {
        Some(list) => Some(list.as_slice()),
        None => None,
    }
}

fn home_of(value: &Value) -> Result<Home, EntryFault>
    ensures { Finds result (λ home. text_at (codes "home") (view value.now) ≡ Some (home_word home)) }
{
    let Some(word) = text_at(value, "home") else {
        return Err(EntryFault::OutOfForm);
    };
    if word == "global" {
        Ok(Home::Global)
    } else if word == "module" {
        Ok(Home::Module)
    } else {
        Err(EntryFault::OutOfForm)
    }
}

// The text that a value is, where it isn't empty.
fn text_of(alloc: Global, value: &Value) -> Result<Text, EntryFault>
    ensures { Finds result (IsText (Some (view value.now))) }
{
    match value.as_str() {
        Some(text) if !text.is_empty() => Ok(Text::of(alloc, text)?),
        _ => Err(EntryFault::OutOfForm),
    }
}

fn name_of(alloc: Global, value: &Value) -> Result<Text, EntryFault>
    ensures { Finds result (IsText (get (codes "name") (view value.now))) }
{
    match value.get("name") {
        Some(name) => text_of(alloc, name),
        None => Err(EntryFault::OutOfForm),
    }
}

fn member_of(alloc: Global, value: &Value) -> Result<Option<Text>, EntryFault>
    ensures { Finds result (IsMember (get (codes "member") (view value.now))) }
{
    match value.get("member") {
        Some(member) => Ok(Some(text_of(alloc, member)?)),
        None => Ok(None),
    }
}

// The number of an argument.
fn argument_of(value: &Value) -> Option<u32>
    ensures { MatchOption result ((n : ℕ) → natural (view value.now) ≡ Some n → 255 < n)
        (λ n. (natural (view value.now) ≡ Some n) × (n ≤ 255)) }
{
    match value.as_u64() {
        Some(number) if number <= 255 => Some(number as u32),
        _ => None,
    }
}

// The numbers of a list of arguments.
fn numbers_of(alloc: Global, values: &[Value]) -> Result<Items<u32>, EntryFault>
    ensures { Finds result (AreNumbers (map view values.now)) }
{
    let mut numbers = Vec::new(alloc);
    for value in values {
        let Some(number) = argument_of(value) else {
            return Err(EntryFault::OutOfForm);
        };
        if numbers.contains(&number) {
            return Err(EntryFault::OutOfForm);
        }
        numbers.push(number)?;
    }
    Ok(Items::from_vec(numbers))
}

// The arguments of a sink.
fn arguments_of(alloc: Global, value: &Value) -> Result<Items<u32>, EntryFault>
    ensures { Finds result (IsArguments (get (codes "arguments") (view value.now))) }
{
    let Some(list) = list_at(value, "arguments") else {
        return Err(EntryFault::OutOfForm);
    };
    let numbers = numbers_of(alloc, list)?;
    if numbers.as_slice().is_empty() {
        return Err(EntryFault::OutOfForm);
    }
    Ok(numbers)
}

// What its call does.
fn kind_of(alloc: Global, value: &Value) -> Result<Kind, EntryFault>
    ensures { Finds result (IsKind (view value.now)) }
{
    let Some(word) = text_at(value, "kind") else {
        return Err(EntryFault::OutOfForm);
    };
    if word == "sink" {
        return Ok(Kind::Sink(arguments_of(alloc, value)?));
    }
    if value.get("arguments").is_some() {
        return Err(EntryFault::OutOfForm);
    }
    if word == "quiet" {
        Ok(Kind::Quiet)
    } else if word == "active" {
        Ok(Kind::Active)
    } else {
        Err(EntryFault::OutOfForm)
    }
}

/// The entry that the value is.
pub fn entry_of(alloc: Global, value: &Value) -> Result<Entry, EntryFault>
    ensures { Finds result (IsEntry (view value.now)) }
{
    if !has_only(value, &["home", "name", "member", "kind", "arguments"]) {
        return Err(EntryFault::OutOfForm);
    }
    Ok(Entry {
        home: home_of(value)?,
        name: name_of(alloc, value)?,
        member: member_of(alloc, value)?,
        kind: kind_of(alloc, value)?,
    })
}
