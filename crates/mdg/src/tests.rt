use crate::edge::DirFolder;
use mdg_port::{Fetched, Folder, FolderFault};
use std::alloc::Global;
use std::fs;
use std::os::unix::fs::symlink;
use std::rt::Files;
use std::test::Fail;

// How many bytes the file at the path has, or none where it is absent or too long.
fn size_at<R: Files>(
    folder: &mut DirFolder<'_, R>,
    alloc: Global,
    path: &str,
) -> Result<Option<usize>, FolderFault> {
    match folder.read(alloc, path, 100)? {
        Fetched::Bytes(bytes) => Ok(Some(bytes.as_slice().len())),
        Fetched::Absent | Fetched::TooLong => Ok(None),
    }
}

// Whether the path is absent, and no read failed.
fn is_absent<R: Files>(folder: &mut DirFolder<'_, R>, alloc: Global, path: &str) -> bool {
    matches!(folder.read(alloc, path, 100), Ok(Fetched::Absent))
}

#[test]
fn paths_at_which_no_file_can_be_are_absent(rt: HostRuntime) -> Result<(), Fail> {
    let mut folder = DirFolder::new(&rt);
    let name = "n".repeat(rt.alloc(), 300)?;
    let path = "n/".repeat(rt.alloc(), 3000)?;
    for absent in [
        "a\0b.js",
        "\0",
        name.as_str(),
        path.as_str(),
        "no_such_folder/index.js",
        ".",
        "",
    ] {
        assert!(rt; is_absent(&mut folder, rt.alloc(), absent), "{absent}");
    }
    Ok(())
}

#[test]
fn links_are_followed_and_a_loop_of_them_is_absent(rt: HostRuntime) -> Result<(), Fail> {
    let mut folder = DirFolder::new(&rt);
    fs::write(&rt, "file.js", b"'use strict';")?;
    symlink(&rt, "file.js", "link.js")?;
    symlink(&rt, "two.js", "one.js")?;
    symlink(&rt, "one.js", "two.js")?;
    assert_eq!(rt; size_at(&mut folder, rt.alloc(), "link.js")?, Some(13));
    assert!(rt; is_absent(&mut folder, rt.alloc(), "one.js"));
    assert!(rt; is_absent(&mut folder, rt.alloc(), "one.js/index.js"));
    assert!(rt; is_absent(&mut folder, rt.alloc(), "file.js/index.js"));
    fs::remove_file(&rt, "one.js")?;
    fs::remove_file(&rt, "two.js")?;
    fs::remove_file(&rt, "link.js")?;
    fs::remove_file(&rt, "file.js")?;
    Ok(())
}
