use crate::{Entry, ProfileRefusal, default_profile, read_profile};
use mdg_base::{Home, Kind};
use std::alloc::Global;
use std::test::Fail;

fn is_member(entry: &Entry, home: Home, name: &str, member: &str) -> bool {
    let is_named = match &entry.member {
        Some(text) => text.as_str() == member,
        None => false,
    };
    entry.home == home && entry.name.as_str() == name && is_named
}

fn is_sink(entry: &Entry, arguments: &[u32]) -> bool {
    match &entry.kind {
        Kind::Sink(listed) => listed.as_slice() == arguments,
        Kind::Quiet | Kind::Active => false,
    }
}

#[test]
fn the_default_lists_each_name_in_its_place(rt: HostRuntime) -> Result<(), Fail> {
    let profile = default_profile(rt.alloc())?;
    let entries = profile.entries.as_slice();
    assert_eq!(rt; entries.len(), 101);
    assert_eq!(rt; entries[0].name.as_str(), "eval");
    assert!(rt; entries[0].home == Home::Global && entries[0].member.is_none());
    assert!(rt; is_sink(&entries[0], &[0]));
    assert!(rt; is_member(&entries[82], Home::Module, "child_process", "execFile"));
    assert!(rt; is_sink(&entries[82], &[0, 1]));
    assert!(rt; is_member(&entries[100], Home::Module, "path", "relative"));
    assert!(rt; matches!(entries[100].kind, Kind::Quiet));
    Ok(())
}

// One entry that is in form.
const RUN: &str = r#"{"home":"global","name":"run","kind":"sink","arguments":[0]}"#;

// The refusal of a profile with these entries.
fn refusal_of_entries(alloc: Global, entries: &str) -> Result<Option<ProfileRefusal>, Fail> {
    let text = format!(in alloc; "{{\"version\":1,\"entries\":[{entries}]}}")?;
    Ok(refusal_of(alloc, text.as_bytes()))
}

fn refusal_of(alloc: Global, bytes: &[u8]) -> Option<ProfileRefusal> {
    match read_profile(alloc, bytes) {
        Ok(_) => None,
        Err(refusal) => Some(refusal),
    }
}

#[test]
fn a_listed_global_is_read(rt: HostRuntime) -> Result<(), Fail> {
    let alloc = rt.alloc();
    let text = format!(in alloc; "{{\"version\":1,\"entries\":[{RUN}]}}")?;
    let profile = read_profile(alloc, text.as_bytes())?;
    let entries = profile.entries.as_slice();
    assert_eq!(rt; entries.len(), 1);
    assert_eq!(rt; entries[0].name.as_str(), "run");
    assert!(rt; entries[0].home == Home::Global && entries[0].member.is_none());
    assert!(rt; is_sink(&entries[0], &[0]));
    Ok(())
}

#[test]
fn bytes_that_are_no_json(rt: HostRuntime) -> Result<(), Fail> {
    let alloc = rt.alloc();
    let rows: [&[u8]; 5] = [
        b"{",
        b"",
        b"[1,]",
        b"\"\xff\"",
        b"{\"version\":1,\"entries\":[]} x",
    ];
    for row in &rows {
        assert_eq!(rt; refusal_of(alloc, row), Some(ProfileRefusal::NotJson));
    }
    Ok(())
}

#[test]
fn json_that_is_no_profile(rt: HostRuntime) -> Result<(), Fail> {
    let alloc = rt.alloc();
    let rows = [
        "[]",
        "1",
        "{}",
        r#"{"version":1}"#,
        r#"{"entries":[]}"#,
        r#"{"version":2,"entries":[]}"#,
        r#"{"version":1.0,"entries":[]}"#,
        r#"{"version":"1","entries":[]}"#,
        r#"{"version":1,"entries":{}}"#,
        r#"{"version":1,"entries":[],"name":"n"}"#,
        r#"{"version":1,"version":2,"entries":[]}"#,
    ];
    for row in &rows {
        assert_eq!(rt;
            refusal_of(alloc, row.as_bytes()),
            Some(ProfileRefusal::NotProfile)
        );
    }
    Ok(())
}

#[test]
fn profiles_in_form(rt: HostRuntime) -> Result<(), Fail> {
    let alloc = rt.alloc();
    let rows = [
        r#"{"version":1,"entries":[]}"#,
        r#"{"entries":[],"version":1}"#,
        r#"{"version":2,"version":1,"entries":[]}"#,
        r#"{"version":1,"entries":[{"name":"a","home":"module","kind":"quiet"},{"name":"a","home":"global","kind":"active"},{"name":"a","member":"m","home":"module","kind":"sink","arguments":[255,0]}]}"#,
        r#"{"version":1,"entries":[{"home":"global","name":"a","name":"b","kind":"quiet"},{"home":"global","name":"a","kind":"quiet"}]}"#,
    ];
    for row in &rows {
        assert_eq!(rt; refusal_of(alloc, row.as_bytes()), None);
    }
    Ok(())
}

#[test]
fn entries_out_of_form(rt: HostRuntime) -> Result<(), Fail> {
    let alloc = rt.alloc();
    let rows = [
        "1",
        "[]",
        r#"{"home":"global","name":"run","kind":"sink"}"#,
        r#"{"home":"global","name":"run","kind":"sink","arguments":[]}"#,
        r#"{"home":"global","name":"run","kind":"sink","arguments":[256]}"#,
        r#"{"home":"global","name":"run","kind":"sink","arguments":[0,1,0]}"#,
        r#"{"home":"global","name":"run","kind":"sink","arguments":[1.0]}"#,
        r#"{"home":"global","name":"run","kind":"sink","arguments":[-0]}"#,
        r#"{"home":"global","name":"run","kind":"sink","arguments":0}"#,
        r#"{"home":"global","name":"run","kind":"quiet","arguments":[0]}"#,
        r#"{"home":"global","name":"run","kind":"quiet","arguments":null}"#,
        r#"{"home":"global","name":"run","kind":"loud"}"#,
        r#"{"home":"global","name":"run"}"#,
        r#"{"home":"local","name":"run","kind":"quiet"}"#,
        r#"{"name":"run","kind":"quiet"}"#,
        r#"{"home":"global","name":"","kind":"quiet"}"#,
        r#"{"home":"global","kind":"quiet"}"#,
        r#"{"home":"global","name":"run","member":"","kind":"quiet"}"#,
        r#"{"home":"global","name":"run","member":null,"kind":"quiet"}"#,
        r#"{"home":"global","name":"run","kind":"quiet","line":1}"#,
    ];
    for row in &rows {
        assert_eq!(rt;
            refusal_of_entries(alloc, row)?,
            Some(ProfileRefusal::BadMember(0))
        );
    }
    Ok(())
}

#[test]
fn the_first_entry_that_is_wrong(rt: HostRuntime) -> Result<(), Fail> {
    let alloc = rt.alloc();
    let twice = format!(in alloc; "{RUN},{RUN}")?;
    let repeated = format!(in alloc; "{RUN},{RUN},1,{RUN}")?;
    let broken = format!(in alloc; "{RUN},1,{RUN}")?;
    assert_eq!(rt;
        refusal_of_entries(alloc, twice.as_str())?,
        Some(ProfileRefusal::RepeatedName(1))
    );
    assert_eq!(rt;
        refusal_of_entries(alloc, repeated.as_str())?,
        Some(ProfileRefusal::RepeatedName(1))
    );
    assert_eq!(rt;
        refusal_of_entries(alloc, broken.as_str())?,
        Some(ProfileRefusal::BadMember(1))
    );
    Ok(())
}

// A profile with one entry that is this many arrays within one another.
fn nested(alloc: Global, depth: usize) -> Result<String, Fail> {
    let mut text = String::from_str(alloc, r#"{"version":1,"entries":["#)?;
    for _ in 0..depth {
        text.push('[')?;
    }
    for _ in 0..depth {
        text.push(']')?;
    }
    text.push_str("]}")?;
    Ok(text)
}

#[test]
fn nesting_has_an_end(rt: HostRuntime) -> Result<(), Fail> {
    let alloc = rt.alloc();
    // The object and its array are two of the 127.
    let deepest = nested(alloc, 125)?;
    let deeper = nested(alloc, 126)?;
    assert_eq!(rt;
        refusal_of(alloc, deepest.as_bytes()),
        Some(ProfileRefusal::BadMember(0))
    );
    assert_eq!(rt;
        refusal_of(alloc, deeper.as_bytes()),
        Some(ProfileRefusal::NotJson)
    );
    Ok(())
}
