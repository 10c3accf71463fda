//! The profile that stands where none is given.
ghost use Rattle.std.specs.Prelude.{◌≡◌, ◌++◌, IfOk, OnOk};
ghost use Rattle.std.specs.List.{flat_map};
ghost use Rattle.mdg_profile.specs.Distinct.{HasDistinctEntries};
ghost use Rattle.mdg_profile.specs.Listing.{group_entries};
ghost use Rattle.mdg_profile.specs.Table.{active_globals, default_table, listed_globals, modules, quiet_globals};

use crate::listing::{Calls, Group, add_group};
use crate::{Entry, Profile};
use mdg_base::{Home, Items, NoMemory};
use std::alloc::Global;

// Globals that have listed members, each before its members, and `eval`.
const LISTED_GLOBALS: [Group; 12] = [
    Group {
        home: Home::Global,
        base: None,
        calls: Calls::Sink(&[0]),
        names: &["eval"],
    },
    Group {
        home: Home::Global,
        base: None,
        calls: Calls::Active,
        names: &["Object"],
    },
    Group {
        home: Home::Global,
        base: Some("Object"),
        calls: Calls::Quiet,
        names: &[
            "keys",
            "freeze",
            "isFrozen",
            "getOwnPropertyNames",
            "getPrototypeOf",
        ],
    },
    Group {
        home: Home::Global,
        base: Some("Object"),
        calls: Calls::Active,
        names: &["create", "assign", "defineProperty", "defineProperties"],
    },
    Group {
        home: Home::Global,
        base: None,
        calls: Calls::Active,
        names: &["Array"],
    },
    Group {
        home: Home::Global,
        base: Some("Array"),
        calls: Calls::Quiet,
        names: &["isArray"],
    },
    Group {
        home: Home::Global,
        base: None,
        calls: Calls::Active,
        names: &["JSON"],
    },
    Group {
        home: Home::Global,
        base: Some("JSON"),
        calls: Calls::Active,
        names: &["parse", "stringify"],
    },
    Group {
        home: Home::Global,
        base: None,
        calls: Calls::Active,
        names: &["Math"],
    },
    Group {
        home: Home::Global,
        base: Some("Math"),
        calls: Calls::Quiet,
        names: &[
            "abs", "ceil", "floor", "max", "min", "pow", "random", "round", "sqrt",
        ],
    },
    Group {
        home: Home::Global,
        base: None,
        calls: Calls::Active,
        names: &["console"],
    },
    Group {
        home: Home::Global,
        base: Some("console"),
        calls: Calls::Quiet,
        names: &["log", "info", "warn", "error"],
    },
];

const QUIET_GLOBALS: [Group; 1] = [Group {
    home: Home::Global,
    base: None,
    calls: Calls::Quiet,
    names: &[
        "String",
        "Number",
        "Boolean",
        "Date",
        "RegExp",
        "Error",
        "TypeError",
        "RangeError",
        "SyntaxError",
        "ReferenceError",
        "EvalError",
        "URIError",
        "parseInt",
        "parseFloat",
        "isNaN",
        "isFinite",
        "encodeURI",
        "encodeURIComponent",
        "decodeURI",
        "decodeURIComponent",
        "escape",
        "unescape",
        "clearTimeout",
        "clearInterval",
        "clearImmediate",
        "__dirname",
        "__filename",
    ],
}];

const ACTIVE_GLOBALS: [Group; 1] = [Group {
    home: Home::Global,
    base: None,
    calls: Calls::Active,
    names: &[
        "Function",
        "Promise",
        "Symbol",
        "Map",
        "Set",
        "WeakMap",
        "WeakSet",
        "ArrayBuffer",
        "DataView",
        "Uint8Array",
        "URL",
        "Buffer",
        "process",
        "global",
        "globalThis",
        "window",
        "self",
        "define",
        "setTimeout",
        "setInterval",
        "setImmediate",
    ],
}];

// Each module, and then its members.
const MODULES: [Group; 7] = [
    Group {
        home: Home::Module,
        base: None,
        calls: Calls::Active,
        names: &["child_process"],
    },
    Group {
        home: Home::Module,
        base: Some("child_process"),
        calls: Calls::Sink(&[0]),
        names: &["exec", "execSync"],
    },
    Group {
        home: Home::Module,
        base: Some("child_process"),
        calls: Calls::Sink(&[0, 1]),
        names: &["execFile", "execFileSync", "spawn", "spawnSync"],
    },
    Group {
        home: Home::Module,
        base: None,
        calls: Calls::Active,
        names: &["fs"],
    },
    Group {
        home: Home::Module,
        base: Some("fs"),
        calls: Calls::Sink(&[0]),
        names: &[
            "readFile",
            "readFileSync",
            "writeFile",
            "writeFileSync",
            "unlink",
            "unlinkSync",
        ],
    },
    Group {
        home: Home::Module,
        base: None,
        calls: Calls::Active,
        names: &["path"],
    },
    Group {
        home: Home::Module,
        base: Some("path"),
        calls: Calls::Quiet,
        names: &[
            "join",
            "resolve",
            "basename",
            "dirname",
            "extname",
            "normalize",
            "relative",
        ],
    },
];

fn add_groups(alloc: Global, entries: &mut Items<Entry>, groups: &[Group]) -> Result<(), NoMemory>
    ensures { OnOk result (entries.new ≡ entries.old ++ flat_map group_entries groups.now) }
{
    for group in groups {
        add_group(alloc, entries, group)?;
    }
    Ok(())
}

#[tactic(auto, unfolding(crate::specs::Table::listed_globals))]
fn add_listed_globals(alloc: Global, entries: &mut Items<Entry>) -> Result<(), NoMemory>
    ensures { OnOk result (entries.new ≡ entries.old ++ listed_globals) }
{
    add_groups(alloc, entries, &LISTED_GLOBALS)
}

#[tactic(auto, unfolding(crate::specs::Table::quiet_globals))]
fn add_quiet_globals(alloc: Global, entries: &mut Items<Entry>) -> Result<(), NoMemory>
    ensures { OnOk result (entries.new ≡ entries.old ++ quiet_globals) }
{
    add_groups(alloc, entries, &QUIET_GLOBALS)
}

#[tactic(auto, unfolding(crate::specs::Table::active_globals))]
fn add_active_globals(alloc: Global, entries: &mut Items<Entry>) -> Result<(), NoMemory>
    ensures { OnOk result (entries.new ≡ entries.old ++ active_globals) }
{
    add_groups(alloc, entries, &ACTIVE_GLOBALS)
}

#[tactic(auto, unfolding(crate::specs::Table::modules))]
fn add_modules(alloc: Global, entries: &mut Items<Entry>) -> Result<(), NoMemory>
    ensures { OnOk result (entries.new ≡ entries.old ++ modules) }
{
    add_groups(alloc, entries, &MODULES)
}

#[tactic(auto, unfolding(crate::specs::Table::default_table))]
fn table(alloc: Global) -> Result<Profile, NoMemory>
    ensures { IfOk result (λ profile. profile ≡ default_table) }
{
    let mut entries = Items::create(alloc);
    add_listed_globals(alloc, &mut entries)?;
    add_quiet_globals(alloc, &mut entries)?;
    add_active_globals(alloc, &mut entries)?;
    add_modules(alloc, &mut entries)?;
    Ok(Profile { entries })
}

/// The profile that stands where none is given: each global and module, and after it its listed members. No two
/// entries have the same home, name and member.
pub fn default_profile(alloc: Global) -> Result<Profile, NoMemory>
    ensures table { IfOk result (λ profile. profile ≡ default_table) }
    ensures distinct { IfOk result HasDistinctEntries }
{
    table(alloc)
}
