mod calls;
mod control;
mod names;
mod operators;
mod properties;

use crate::code_listing::listed;
use calls::{ASKING_FILES, ASKING_STATEMENTS, CALLS, CREATED, SHARED};
use control::{CHOICES, FOR_IN, LOOPS, RETURNS};
use mdg_code::{Code, valid};
use mdg_lower::{LowerRefusal, lower};
use mdg_pack::gather;
use mdg_port::MemFolder;
use mdg_profile::default_profile;
use names::{CAPTURED, NAMES, OWN_NAME};
use operators::{ASSIGNED, OPERATORS, STEPS};
use properties::{DELETED, INITIALISERS, KEPT_BASE, MEMBERS};
use std::alloc::{AllocError, Global};
use std::test::Fail;

// The code of the package with these files.
fn lowered(alloc: Global, files: &[(&str, &str)]) -> Result<Result<Code, LowerRefusal>, Fail> {
    let mut folder = MemFolder::create(alloc)?;
    for (path, text) in files {
        folder.hold(path, text.as_bytes())?;
    }
    let profile = default_profile(alloc)?;
    let package = gather(alloc, &mut folder, &profile)?;
    Ok(lower(alloc, package.files.as_slice(), &profile))
}

// How many statements, columns and shared things the code of the package has, or the refusal.
fn size_of(alloc: Global, files: &[(&str, &str)]) -> Result<String, Fail> {
    let text = match lowered(alloc, files)? {
        Ok(code) => {
            let lines = code.lines.as_slice().len();
            let columns = code.columns.as_slice().len();
            let shared = code.shared.as_slice().len();
            format!(in alloc; "lines {lines} columns {columns} shared {shared}")?
        }
        Err(LowerRefusal::TooManySites(count)) => format!(in alloc; "too many sites {count}")?,
        Err(LowerRefusal::TooManyNames(count)) => format!(in alloc; "too many names {count}")?,
        Err(LowerRefusal::NoMemory) => format!(in alloc; "no memory")?,
    };
    Ok(text)
}

const LISTER: [(&str, &str); 2] = [
    (
        "package.json",
        "{\"name\":\"lister\",\"version\":\"1.0.0\",\"main\":\"index.js\"}",
    ),
    (
        "index.js",
        "\
'use strict';
var cp = require('child_process');
function quote(s) {
  return \"'\" + s + \"'\";
}
function run(dir, cb) {
  cp.exec('ls ' + quote(dir), function (err, out) {
    cb(err, out);
  });
}
module.exports = { run: run };
",
    ),
];

const LINKED: [(&str, &str); 1] = [(
    "index.js",
    "\
'use strict';
function f(n) {
  var x = null;
  while (n) {
    x = {};
    x.p = x;
  }
}
module.exports = f;
",
)];

#[test]
fn packages_have_so_many_statements(rt: HostRuntime) -> Result<(), Fail> {
    let lister = size_of(rt.alloc(), LISTER.as_slice())?;
    assert_eq!(rt; lister.as_str(), "lines 47 columns 3 shared 7");
    let linked = size_of(rt.alloc(), LINKED.as_slice())?;
    assert_eq!(rt; linked.as_str(), "lines 23 columns 2 shared 0");
    Ok(())
}

// A text of so many statements.
fn repeated(alloc: Global, count: u32) -> Result<String, AllocError> {
    let mut text = String::from_str(alloc, "'use strict';")?;
    for _ in 0..count {
        text.push_str("1;")?;
    }
    Ok(text)
}

// A text of an object with so many properties.
fn named(alloc: Global, count: u32) -> Result<String, AllocError> {
    let mut text = String::from_str(alloc, "'use strict';({n0:1")?;
    for number in 1..count {
        text.push_str(format!(in alloc; ",n{number}:1")?.as_str())?;
    }
    text.push_str("});")?;
    Ok(text)
}

#[test]
fn statements_and_names_are_counted(rt: HostRuntime) -> Result<(), Fail> {
    let alloc = rt.alloc();
    let rows = [
        (repeated(alloc, 32_760)?, "lines 32768 columns 1 shared 0"),
        (repeated(alloc, 32_761)?, "too many sites 32769"),
        (named(alloc, 2_047)?, "lines 4103 columns 2048 shared 0"),
        (named(alloc, 2_048)?, "too many names 2049"),
    ];
    for (text, wanted) in rows {
        let found = size_of(alloc, &[("index.js", text.as_str())])?;
        assert_eq!(rt; found.as_str(), wanted);
    }
    Ok(())
}

// Whether the package is lowered to these statements.
fn is_listed_as(alloc: Global, files: &[(&str, &str)], wanted: &str) -> Result<bool, Fail> {
    match lowered(alloc, files)? {
        Ok(code) => Ok(valid(&code) && listed(alloc, &code)?.as_str() == wanted),
        Err(_) => Ok(false),
    }
}

#[test]
fn files_become_these_statements(rt: HostRuntime) -> Result<(), Fail> {
    let rows = [
        NAMES,
        CAPTURED,
        OWN_NAME,
        MEMBERS,
        INITIALISERS,
        KEPT_BASE,
        DELETED,
        OPERATORS,
        ASSIGNED,
        STEPS,
        CHOICES,
        LOOPS,
        FOR_IN,
        RETURNS,
        CALLS,
        CREATED,
        SHARED,
    ];
    for (text, wanted) in rows {
        assert!(rt;
            is_listed_as(rt.alloc(), &[("index.js", text)], wanted)?,
            "{text}"
        );
    }
    Ok(())
}

#[test]
fn files_that_ask_for_one_another_become_these_statements(rt: HostRuntime) -> Result<(), Fail> {
    assert!(rt; is_listed_as(rt.alloc(), ASKING_FILES.as_slice(), ASKING_STATEMENTS)?);
    Ok(())
}
