//! The numbers of globals and modules, for look-ups.

ghost use Rattle.std.specs.Prelude.{◌≡◌, ℕ, List, if◌then◌else◌, Some, None, IfOk, OnOk};
ghost use Rattle.std.specs.Borrow.{Bor};
ghost use Rattle.mdg_base.specs.declared.profile_word.Home.{Home};
ghost use Rattle.mdg_code.specs.declared.code.SharedRow.{SharedRow};
ghost use Rattle.mdg_lower.specs.SharedRows as sharing;
ghost use Rattle.mdg_lower.specs.SharedTable as lookups;

use crate::column::counted;
use indexmap::IndexMap;
use mdg_base::{Home, NoMemory, SharedId};
use mdg_code::SharedRow;
use std::alloc::Global;

/// The numbers of the rows of globals and modules, by home and name.
#[derive(Drop)]
pub struct SharedTable<'a> {
    globals: IndexMap<&'a str, SharedId>,
    modules: IndexMap<&'a str, SharedId>,
}

fn number_in<'a>(numbers: &IndexMap<&'a str, SharedId>, name: &str) -> SharedId
    ensures { result ≡ lookups.or_zero (lookups.number_at numbers.now name.now) }
{
    match numbers.get(name) {
        Some(number) => *number,
        None => SharedId(0),
    }
}

/// Gives the name the number, unless it has one.
fn put_number<'a>(
    numbers: &mut IndexMap<&'a str, SharedId>,
    name: &'a str,
    number: SharedId,
) -> Result<(), NoMemory>
    ensures { OnOk result ((asked : Bor (List ℕ)) → lookups.number_at numbers.new asked.now ≡ lookups.else_number
        (lookups.number_at numbers.old asked.now) (lookups.number_if asked.now name.now number)) }
{
    if !numbers.contains_key(name) {
        numbers.insert(name, number)?;
    }
    Ok(())
}

impl<'a> SharedTable<'a> {
    /// A table of these rows.
    pub fn of(alloc: Global, rows: &'a [SharedRow]) -> Result<SharedTable<'a>, NoMemory>
        ensures { IfOk result (lookups.IsTableOf rows.now) }
    {
        let mut table = SharedTable {
            globals: IndexMap::new(alloc),
            modules: IndexMap::new(alloc),
        };
        for (number, row) in rows.iter().enumerate() {
            table.put(SharedId(counted(number)?), row)?;
        }
        Ok(table)
    }

    /// The number of the row of the global or the module, or 0 where it has none.
    pub fn number(&self, home: Home, name: &str) -> SharedId
        ensures { (rows : List SharedRow) → lookups.IsTableOf rows self.now → result.0 ≡ sharing.shared_number rows home
            name.now }
    {
        match home {
            Home::Global => number_in(&self.globals, name),
            Home::Module => number_in(&self.modules, name),
        }
    }

    /// Gives the global or the module of the row the number, unless it has one. A member gets none.
    fn put(&mut self, number: SharedId, row: &'a SharedRow) -> Result<(), NoMemory>
        ensures { OnOk result ((home : Home) (asked : Bor (List ℕ)) → lookups.found home self.new asked.now
            ≡ lookups.else_number (lookups.found home self.old asked.now)
            (if sharing.is_row_of home asked.now row.now then Some number else None)) }
    {
        if row.member.is_some() {
            return Ok(());
        }
        match row.home {
            Home::Global => put_number(&mut self.globals, row.name.as_str(), number),
            Home::Module => put_number(&mut self.modules, row.name.as_str(), number),
        }
    }
}
