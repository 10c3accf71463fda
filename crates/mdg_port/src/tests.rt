use crate::{
    Fetched, Folder, FolderFault, Gate, MemFolder, MemSink, NoGate, Sink, SinkFailed, write_whole,
};
use std::alloc::Global;
use std::test::Fail;

// The bytes that a read of the path gives, or none where it gives no bytes.
fn bytes_at(
    folder: &mut MemFolder,
    alloc: Global,
    path: &str,
    limit: u64,
) -> Result<Option<Vec<u8>>, FolderFault> {
    match folder.read(alloc, path, limit)? {
        Fetched::Bytes(bytes) => Ok(Some(bytes.into_vec())),
        Fetched::Absent | Fetched::TooLong => Ok(None),
    }
}

#[test]
fn a_folder_gives_what_it_holds(rt: HostRuntime) -> Result<(), Fail> {
    let mut folder = MemFolder::create(rt.alloc())?;
    folder.hold("a.js", b"old")?;
    folder.hold("b.js", b"other")?;
    folder.hold("a.js", b"new")?;
    assert_eq!(rt;
        bytes_at(&mut folder, rt.alloc(), "a.js", 3)?.as_deref(),
        Some(b"new".as_slice())
    );
    assert_eq!(rt;
        bytes_at(&mut folder, rt.alloc(), "b.js", 4)?.as_deref(),
        None
    );
    assert_eq!(rt;
        bytes_at(&mut folder, rt.alloc(), "c.js", 4)?.as_deref(),
        None
    );
    Ok(())
}

#[test]
fn a_sink_takes_what_fits(rt: HostRuntime) -> Result<(), Fail> {
    let mut out = MemSink::create(rt.alloc(), 5)?;
    assert_eq!(rt; write_whole(&mut out, b"one"), Ok(()));
    assert_eq!(rt; out.put(b"two"), Ok(2));
    assert_eq!(rt; write_whole(&mut out, b"o"), Err(SinkFailed));
    assert_eq!(rt; out.written(), b"onetw".as_slice());
    NoGate.turn(0, 1);
    Ok(())
}
