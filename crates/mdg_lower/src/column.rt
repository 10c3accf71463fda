//! The columns of property names.

ghost use Rattle.std.specs.Prelude.{◌≡◌, ◌∷◌, [], filter, length, IfOk, OnOk};
ghost use Rattle.mdg_scope.specs.Names.{add_name};
ghost use Rattle.mdg_lower.specs.Columns as columns_of;

use crate::draft::{Draft, DraftLine};
use mdg_base::{Column, Items, NoMemory, Text};
use mdg_scope::Names;
use std::alloc::Global;
use std::marker::Model;

fn are_digits(bytes: &[u8]) -> bool
    ensures { result ≡ columns_of.are_digits bytes.now }
{
    bytes.iter().all(|byte| byte.is_ascii_digit())
}

fn are_plain(bytes: &[u8]) -> bool
    ensures { result ≡ columns_of.is_plain bytes.now }
{
    match bytes {
        [] => false,
        [b'0', rest @ ..] => rest.is_empty(),
        [first, rest @ ..] => first.is_ascii_digit() && rest.len() <= 14 && are_digits(rest),
    }
}

fn is_small(bytes: &[u8]) -> bool
    ensures { result ≡ columns_of.is_small bytes.now }
{
    match bytes {
        [first] => first.is_ascii_digit(),
        [first, second] => *first == b'1' && second.is_ascii_digit() && *second <= b'5',
        _ => false,
    }
}

/// Whether the text is a plain numeral: `0`, or a digit from 1 on and then at most 14 digits.
pub fn is_plain(text: &str) -> bool
    ensures { result ≡ columns_of.is_plain text.now }
{
    are_plain(text.as_bytes())
}

/// Whether a property name has a column. Plain numerals above 15 have none.
pub fn is_listed(name: &str) -> bool
    ensures { result ≡ columns_of.is_listed name.now }
{
    !is_plain(name) || is_small(name.as_bytes())
}

/// The number, where there are fewer than 2^32 of its kind.
pub fn counted(number: usize) -> Result<u32, NoMemory>
    ensures { IfOk result (λ n. n ≡ number) }
{
    match u32::try_from(number) {
        Ok(number) => Ok(number),
        Err(_) => Err(NoMemory),
    }
}

/// The names that have a column, for look-ups. Contracts see it as their list.
#[derive(Drop)]
pub struct ColumnTable<'a> {
    names: Names<'a>,
    count: u32,
}

impl<'a> Model for ColumnTable<'a> {
    ghost use Rattle.std.specs.Prelude.{◌≡◌, List, ℕ, length};

    ghost Value = { List (List ℕ) };

    ghost view = { λ t. t.names };

    ghost invariant = { λ t. t.count ≡ length t.names };
}

impl<'a> ColumnTable<'a> {
    /// A table of these names.
    pub fn of(alloc: Global, columns: &'a [Text]) -> Result<ColumnTable<'a>, NoMemory>
        ensures { IfOk result (λ t. t ≡ columns_of.add_names [] columns.now) }
    {
        let mut names = Names::create(alloc);
        let mut count: u32 = 0;
        for column in columns {
            count = add_counted(&mut names, count, column.as_str())?;
        }
        Ok(ColumnTable { names, count })
    }

    /// The column of the name, or the number after the last column where it has none.
    pub fn column(&self, name: &str) -> Result<Column, NoMemory>
        ensures { IfOk result (λ c. c.0 ≡ columns_of.column_of self.now name.now) }
    {
        match self.names.place(name) {
            Some(place) => Ok(Column(counted(place)?)),
            None => Ok(Column(self.count)),
        }
    }
}

/// Puts the name after the others, unless it is there. From their number the answer is the new number.
fn add_counted<'a>(names: &mut Names<'a>, count: u32, name: &'a str) -> Result<u32, NoMemory>
    ensures names { OnOk result (names.new ≡ add_name names.old name.now) }
    ensures count { IfOk result (λ n. count ≡ length names.old → n ≡ length names.new) }
{
    if names.add(name)? {
        count.checked_add(1).ok_or(NoMemory)
    } else {
        Ok(count)
    }
}

fn put_name<'a>(
    table: &mut Names<'a>,
    columns: &mut Items<Text>,
    alloc: Global,
    name: &'a str,
) -> Result<(), NoMemory>
    ensures table { OnOk result (table.new ≡ columns_of.add_names table.old
        (filter columns_of.is_listed (name.now ∷ []))) }
    ensures columns { OnOk result (table.old ≡ columns.old → table.new ≡ columns.new) }
{
    if is_listed(name) && table.add(name)? {
        columns.push(Text::of(alloc, name)?)?;
    }
    Ok(())
}

fn put_draft<'a>(
    table: &mut Names<'a>,
    columns: &mut Items<Text>,
    alloc: Global,
    draft: &'a Draft,
) -> Result<(), NoMemory>
    ensures table { OnOk result (table.new ≡ columns_of.add_names table.old
        (filter columns_of.is_listed (columns_of.name_in draft.now))) }
    ensures columns { OnOk result (table.old ≡ columns.old → table.new ≡ columns.new) }
{
    match draft {
        Draft::Get { name, .. } | Draft::Set { name, .. } => {
            put_name(table, columns, alloc, name.as_str())
        }
        Draft::Complete(_) | Draft::Shared { .. } | Draft::Branch { .. } => Ok(()),
    }
}

/// The property names of drafts that have a column, each once, by their first draft.
#[tactic(auto, using(crate::proofs::ColumnLemmas::add_line), unfolding(crate::specs::Columns::columns_in))]
pub fn column_names(alloc: Global, lines: &[DraftLine]) -> Result<Items<Text>, NoMemory>
    ensures { IfOk result (λ c. c ≡ columns_of.columns_in lines.now) }
{
    let mut table = Names::create(alloc);
    let mut columns = Items::create(alloc);
    for line in lines {
        put_draft(&mut table, &mut columns, alloc, &line.draft)?;
    }
    Ok(columns)
}
