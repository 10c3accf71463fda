use mdg_base::{FunId, Items, NoMemory, Site, Text};
use mdg_code::valid;
use mdg_lower::lower;
use mdg_profile::Profile;
use mdg_scope::{Bound, BoundFunction};
use mdg_tree::{At, FileTree};
use std::alloc::Global;
use std::test::Fail;

// A file with its directive alone.
fn directive(alloc: Global) -> Result<Bound, NoMemory> {
    let mut locals = Items::create(alloc);
    locals.push(Text::of(alloc, "module")?)?;
    locals.push(Text::of(alloc, "exports")?)?;
    let mut functions = Items::create(alloc);
    functions.push(BoundFunction {
        parent: None,
        name: None,
        parameters: Items::create(alloc),
        locals,
        cells: Items::create(alloc),
        own_name: false,
        line: 1,
        offset: 0,
    })?;
    Ok(Bound {
        path: Text::of(alloc, "index.js")?,
        tree: FileTree {
            at: At { line: 1, offset: 0 },
            items: Items::create(alloc),
        },
        functions,
        required: Items::create(alloc),
    })
}

#[test]
fn a_file_begins_with_its_module_object(rt: HostRuntime) -> Result<(), Fail> {
    let profile = Profile {
        entries: Items::create(rt.alloc()),
    };
    let files = [directive(rt.alloc())?];
    let code = lower(rt.alloc(), files.as_slice(), &profile)?;
    assert!(rt; valid(&code));
    assert_eq!(rt; code.lines.as_slice().len(), 8);
    let body = code.functions.as_slice().first();
    let sizes = body.map(|row| (row.locals, row.entry, row.end));
    assert_eq!(rt; sizes, Some((4, Site(0), Site(7))));
    assert_eq!(rt; code.cells.as_slice(), [FunId(0)].as_slice());
    let column = code.columns.as_slice().first();
    assert_eq!(rt; column.map(|name| name.as_str()), Some("exports"));
    Ok(())
}
