use crate::{Status, scan};
use mdg_port::{MemFolder, MemSink, NoGate};
use std::alloc::Global;
use std::test::Fail;
use std::thread::Threads;

// The status and the text for these words, where the folder holds this at `index.js`, or nothing.
fn answered<R: Threads + Sync>(
    rt: &R,
    alloc: Global,
    words: &[String],
    file: Option<&str>,
    room: usize,
) -> Result<(Status, Vec<u8>), Fail> {
    let mut folder = MemFolder::create(alloc)?;
    if let Some(text) = file {
        folder.hold("index.js", text.as_bytes())?;
    }
    let mut out = MemSink::create(alloc, room)?;
    let status = scan(rt, alloc, words, &mut folder, &mut out, &NoGate);
    Ok((status, out.written().to_vec(alloc)?))
}

#[test]
fn rows(rt: HostRuntime) -> Result<(), Fail> {
    let words = vec![in rt.alloc(); String::from_str(rt.alloc(), "scan")?]?;
    let rows = [
        (
            Some("'use strict';\nfunction run(a) { eval(a + 'x'); }\nmodule.exports = run;\n"),
            Status::Findings,
            "flow index.js:2 eval argument 0\nfindings 1\n",
        ),
        (
            Some(
                "'use strict';\nfunction run(a) { eval(a); }\nfunction f(b) { eval(b); }\nmodule.exports = f;",
            ),
            Status::Findings,
            "flow index.js:3 eval argument 0\nfindings 1\n",
        ),
        (
            Some("'use strict';\nfunction run(a) { eval(a); }\n"),
            Status::Clean,
            "findings 0\n",
        ),
        (Some("'use strict';"), Status::Clean, "findings 0\n"),
        (
            Some("var a;"),
            Status::Refused,
            "refused NotStrict index.js\n",
        ),
        (
            Some("'use strict';\nvar a;\n"),
            Status::Refused,
            "refused NoTree index.js:2\n",
        ),
        (
            Some(
                "'use strict';\nfunction q(s) { eval(s); }\nfunction run(a) { q(a + 'x'); }\nmodule.exports = run;\n",
            ),
            Status::Refused,
            "refused NoTree index.js:3\n",
        ),
        (None, Status::Refused, "refused NoFile index.js\n"),
    ];
    for (file, status, text) in rows {
        let found = answered(&rt, rt.alloc(), words.as_slice(), file, 200)?;
        assert_eq!(rt; found.0, status);
        assert_eq!(rt; found.1.as_slice(), text.as_bytes());
    }
    Ok(())
}

#[test]
fn other_words_and_a_full_sink(rt: HostRuntime) -> Result<(), Fail> {
    let words = vec![in rt.alloc(); String::from_str(rt.alloc(), "scan")?]?;
    let (status, text) = answered(&rt, rt.alloc(), &[], None, 200)?;
    assert_eq!(rt; status, Status::Usage);
    assert_eq!(rt; text.len(), 113);
    let (status, text) = answered(&rt, rt.alloc(), words.as_slice(), None, 10)?;
    assert_eq!(rt; status, Status::WriteFault);
    assert_eq!(rt; text.as_slice(), b"refused No".as_slice());
    Ok(())
}

#[test]
fn workers_change_nothing_and_the_rest_is_not_built(rt: HostRuntime) -> Result<(), Fail> {
    let rows = [
        ("scan --workers 2", Status::Clean, "findings 0\n"),
        ("scan --json", Status::Refused, "refused NotBuilt\n"),
        (
            "scan --profile p.json",
            Status::Refused,
            "refused NotBuilt\n",
        ),
        ("replay s.json", Status::Refused, "refused NotBuilt\n"),
        ("sample 1", Status::Refused, "refused NotBuilt\n"),
    ];
    for (line, status, text) in rows {
        let mut words = Vec::new(rt.alloc());
        for word in line.split(' ') {
            words.push(String::from_str(rt.alloc(), word)?)?;
        }
        let file = Some("'use strict';");
        let found = answered(&rt, rt.alloc(), words.as_slice(), file, 200)?;
        assert_eq!(rt; found.0, status);
        assert_eq!(rt; found.1.as_slice(), text.as_bytes());
    }
    Ok(())
}
