ghost use Rattle.std.specs.Prelude.{None};

use mdg_base::Text;
use mdg_pack::{PackFault, Package, gather};
use mdg_port::{Fetched, Folder, FolderFault, MemFolder};
use mdg_profile::default_profile;
use mdg_read::ReadRefusal;
use mdg_scope::{Bound, Goal, Require, ScopeRefusal};
use mdg_text::TextFault;
use std::alloc::{AllocError, Global};
use std::test::Fail;

// A folder that writes down what is read, and fails the read of one number, counted from 1.
#[derive(Drop)]
struct Recorded {
    inner: MemFolder,
    asked: Text,
    reads: u64,
    failing: u64,
    faults: u64,
}

impl Folder for Recorded {
    ghost held = { λ _. None };

    ghost reads = { λ f. f.reads };

    ghost faults = { λ f. f.faults };

    fn read(&mut self, alloc: Global, path: &str, limit: u64) -> Result<Fetched, FolderFault> {
        self.reads = self.reads.saturating_add(1);
        self.asked.add("read ")?;
        self.asked.add(path)?;
        self.asked.add("\n")?;
        if self.reads == self.failing {
            self.faults = self.faults.saturating_add(1);
            return Err(FolderFault::Failed);
        }
        match self.inner.read(alloc, path, limit) {
            Ok(fetched) => Ok(fetched),
            Err(_) => Err(FolderFault::NoMemory),
        }
    }
}

fn text_refusal(
    alloc: Global,
    path: &str,
    fault: TextFault,
    line: u32,
) -> Result<String, AllocError> {
    match fault {
        TextFault::NotUtf8(_) => format!(in alloc; "refused NotUtf8 {path}:{line}\n"),
        TextFault::BadToken(_) => format!(in alloc; "refused BadToken {path}:{line}\n"),
        TextFault::TooManyTokens(_) => format!(in alloc; "refused TooManyTokens {path}\n"),
        TextFault::NoMemory => String::from_str(alloc, "no memory\n"),
    }
}

fn read_refusal(
    alloc: Global,
    path: &str,
    fault: &ReadRefusal,
    line: u32,
) -> Result<String, AllocError> {
    match fault {
        ReadRefusal::NotStrict => format!(in alloc; "refused NotStrict {path}\n"),
        ReadRefusal::NotCore(name, _) => {
            let name = name.as_str();
            format!(in alloc; "refused NotCore {path}:{line} {name}\n")
        }
        ReadRefusal::NoTree(_) => format!(in alloc; "refused NoTree {path}:{line}\n"),
        ReadRefusal::NoMemory => String::from_str(alloc, "no memory\n"),
    }
}

fn scope_refusal(
    alloc: Global,
    path: &str,
    fault: &ScopeRefusal,
    line: u32,
) -> Result<String, AllocError> {
    match fault {
        ScopeRefusal::BadBinding(name, _) => {
            let name = name.as_str();
            format!(in alloc; "refused BadBinding {path}:{line} {name}\n")
        }
        ScopeRefusal::Unbound(name, _) => {
            let name = name.as_str();
            format!(in alloc; "refused Unbound {path}:{line} {name}\n")
        }
        ScopeRefusal::BadRequire(_) => format!(in alloc; "refused BadRequire {path}:{line}\n"),
        ScopeRefusal::BadNew(_) => format!(in alloc; "refused BadNew {path}:{line}\n"),
        ScopeRefusal::BadJump(_) => format!(in alloc; "refused BadJump {path}:{line}\n"),
        ScopeRefusal::NoMemory => String::from_str(alloc, "no memory\n"),
    }
}

fn refusal(alloc: Global, fault: &PackFault) -> Result<String, AllocError> {
    match fault {
        PackFault::BadManifest => String::from_str(alloc, "refused BadManifest\n"),
        PackFault::NoFile(path) => {
            let path = path.as_str();
            format!(in alloc; "refused NoFile {path}\n")
        }
        PackFault::TooLong(path) => {
            let path = path.as_str();
            format!(in alloc; "refused TooLong {path}\n")
        }
        PackFault::TooManyFiles(count) => format!(in alloc; "refused TooManyFiles {count}\n"),
        PackFault::Text(path, fault, line) => text_refusal(alloc, path.as_str(), *fault, *line),
        PackFault::Read(path, fault, line) => read_refusal(alloc, path.as_str(), fault, *line),
        PackFault::Scope(path, fault, line) => scope_refusal(alloc, path.as_str(), fault, *line),
        PackFault::FolderFailed(path) => {
            let path = path.as_str();
            format!(in alloc; "read fault {path}\n")
        }
        PackFault::NoMemory => String::from_str(alloc, "no memory\n"),
    }
}

fn required(alloc: Global, require: &Require) -> Result<String, AllocError> {
    let offset = require.offset;
    let text = require.text.as_str();
    match require.goal {
        Goal::Bare => format!(in alloc; "  require at {offset} '{text}' bare\n"),
        Goal::Path => format!(in alloc; "  require at {offset} '{text}' not found\n"),
        Goal::File(file) => {
            let number = file.0;
            format!(in alloc; "  require at {offset} '{text}' file {number}\n")
        }
    }
}

fn listed(alloc: Global, number: usize, file: &Bound) -> Result<String, AllocError> {
    let path = file.path.as_str();
    let mut text = format!(in alloc; "file {number} {path}\n")?;
    for require in file.required.as_slice() {
        text.push_str(required(alloc, require)?.as_str())?;
    }
    Ok(text)
}

fn outcome(alloc: Global, answer: &Result<Package, PackFault>) -> Result<String, AllocError> {
    match answer {
        Ok(package) => {
            let mut text = String::new(alloc);
            for (number, file) in package.files.as_slice().iter().enumerate() {
                text.push_str(listed(alloc, number, file)?.as_str())?;
            }
            Ok(text)
        }
        Err(fault) => refusal(alloc, fault),
    }
}

// What is read of a folder with these files, and the files in their numbers or the refusal.
fn walk_of(alloc: Global, files: &[(&str, &str)], failing: u64) -> Result<String, Fail> {
    let mut inner = MemFolder::create(alloc)?;
    for (path, text) in files {
        inner.hold(path, text.as_bytes())?;
    }
    let mut folder = Recorded {
        inner,
        asked: Text::of(alloc, "")?,
        reads: 0,
        failing,
        faults: 0,
    };
    let profile = default_profile(alloc)?;
    let answer = gather(alloc, &mut folder, &profile);
    let mut text = String::from_str(alloc, folder.asked.as_str())?;
    text.push_str(outcome(alloc, &answer)?.as_str())?;
    Ok(text)
}

const STRICT: &str = "'use strict';";

const CYCLE: [(&str, &str); 2] = [
    (
        "index.js",
        "'use strict';\nexports.sh = require('child_process').exec;\nmodule.exports = { run: require('./h').run };\n",
    ),
    (
        "h/index.js",
        "'use strict';\nvar up = require('../index');\nexports.run = function (x) { up.sh(x); };\n",
    ),
];

#[test]
fn a_cycle_is_read_once_and_numbered_as_it_is_found(rt: HostRuntime) -> Result<(), Fail> {
    let rows = [
        (
            0,
            "read package.json\nread index.js\nread h.js\nread h/index.js\nfile 0 index.js\n  require at 27 'child_process' bare\n  require at 82 './h' file 1\nfile 1 h/index.js\n  require at 23 '../index' file 0\n",
        ),
        (1, "read package.json\nread fault package.json\n"),
        (2, "read package.json\nread index.js\nread fault index.js\n"),
        (
            3,
            "read package.json\nread index.js\nread h.js\nread fault h.js\n",
        ),
        (
            4,
            "read package.json\nread index.js\nread h.js\nread h/index.js\nread fault h/index.js\n",
        ),
        (
            5,
            "read package.json\nread index.js\nread h.js\nread h/index.js\nfile 0 index.js\n  require at 27 'child_process' bare\n  require at 82 './h' file 1\nfile 1 h/index.js\n  require at 23 '../index' file 0\n",
        ),
    ];
    for (failing, wanted) in rows {
        let found = walk_of(rt.alloc(), &CYCLE, failing)?;
        assert_eq!(rt; found.as_str(), wanted);
    }
    Ok(())
}

// Of a folder in which the manifest is this, and one more file is there.
fn by_manifest(alloc: Global, manifest: &str, path: &str) -> Result<String, Fail> {
    walk_of(alloc, &[("package.json", manifest), (path, STRICT)], 0)
}

#[test]
fn the_manifest_names_the_entry(rt: HostRuntime) -> Result<(), Fail> {
    let rows = [
        ("[]", "index.js", "read package.json\nrefused BadManifest\n"),
        ("{", "index.js", "read package.json\nrefused BadManifest\n"),
        (
            "{\"main\":1}",
            "index.js",
            "read package.json\nrefused BadManifest\n",
        ),
        (
            "{\"main\":\"x.json\"}",
            "x.json",
            "read package.json\nrefused BadManifest\n",
        ),
        (
            "{\"main\":\"x.node\"}",
            "x.node",
            "read package.json\nrefused BadManifest\n",
        ),
        (
            "{\"main\":\"../x\"}",
            "index.js",
            "read package.json\nrefused BadManifest\n",
        ),
        (
            "{\"main\":\"a/../../x\"}",
            "index.js",
            "read package.json\nrefused BadManifest\n",
        ),
        (
            "{}",
            "index.js",
            "read package.json\nread index.js\nfile 0 index.js\n",
        ),
        (
            "{\"main\":\"\"}",
            "index.js",
            "read package.json\nread index.js\nfile 0 index.js\n",
        ),
        (
            "{\"main\":\".\"}",
            "index.js",
            "read package.json\nread index.js\nfile 0 index.js\n",
        ),
        (
            "{\"main\":\"a/..\"}",
            "index.js",
            "read package.json\nread index.js\nfile 0 index.js\n",
        ),
        (
            "{\"main\":\"./a\"}",
            "a.js",
            "read package.json\nread a.js\nfile 0 a.js\n",
        ),
        (
            "{\"main\":\"a.js\"}",
            "a.js",
            "read package.json\nread a.js\nfile 0 a.js\n",
        ),
        (
            "{\"main\":\"a.js\"}",
            "a.js.js",
            "read package.json\nread a.js\nread a.js.js\nfile 0 a.js.js\n",
        ),
        (
            "{\"main\":\"lib/\"}",
            "lib.js",
            "read package.json\nread lib/index.js\nread index.js\nrefused NoFile index.js\n",
        ),
        (
            "{\"main\":\"lib\"}",
            "lib/index.js",
            "read package.json\nread lib.js\nread lib/index.js\nfile 0 lib/index.js\n",
        ),
        (
            "{\"main\":\"lib\"}",
            "x",
            "read package.json\nread lib.js\nread lib/index.js\nread index.js\nrefused NoFile index.js\n",
        ),
    ];
    for (manifest, path, wanted) in rows {
        let found = by_manifest(rt.alloc(), manifest, path)?;
        assert_eq!(rt; found.as_str(), wanted);
    }
    let found = walk_of(rt.alloc(), &[], 0)?;
    assert_eq!(rt;
        found.as_str(),
        "read package.json\nread index.js\nrefused NoFile index.js\n"
    );
    Ok(())
}

#[test]
fn requires_are_resolved_by_their_candidates(rt: HostRuntime) -> Result<(), Fail> {
    let data = [(
        "index.js",
        "'use strict';\nexports.v = require('./package.json').version;\n",
    )];
    let found = walk_of(rt.alloc(), &data, 0)?;
    assert_eq!(rt;
        found.as_str(),
        "read package.json\nread index.js\nfile 0 index.js\n  require at 26 './package.json' bare\n"
    );
    let twice = [
        (
            "index.js",
            "'use strict';\nrequire('./a'); require('./a/'); require('./x/../a'); require('.'); require('./index');",
        ),
        (
            "a/index.js",
            "'use strict';\nrequire('..'); require('./b');",
        ),
        ("a/b.js", "'use strict';"),
    ];
    let found = walk_of(rt.alloc(), &twice, 0)?;
    assert_eq!(rt;
        found.as_str(),
        "read package.json\nread index.js\nread a.js\nread a/index.js\nread a/b.js\nfile 0 index.js\n  require at 14 './a' file 1\n  require at 30 './a/' file 1\n  require at 47 './x/../a' file 1\n  require at 68 '.' file 0\n  require at 82 './index' file 0\nfile 1 a/index.js\n  require at 14 '..' file 0\n  require at 29 './b' file 2\nfile 2 a/b.js\n"
    );
    let beside = [
        (
            "index.js",
            "'use strict';\nrequire('./lib'); require('./lib/'); require('./lib.js');",
        ),
        ("lib.js", "'use strict';"),
        ("lib/index.js", "'use strict';"),
    ];
    let found = walk_of(rt.alloc(), &beside, 0)?;
    assert_eq!(rt;
        found.as_str(),
        "read package.json\nread index.js\nread lib.js\nread lib/index.js\nfile 0 index.js\n  require at 14 './lib' file 1\n  require at 32 './lib/' file 2\n  require at 51 './lib.js' file 1\nfile 1 lib.js\nfile 2 lib/index.js\n"
    );
    Ok(())
}

#[test]
fn each_refusal_has_its_path_and_line(rt: HostRuntime) -> Result<(), Fail> {
    let rows = [
        ("var a;", "refused NotStrict a.js\n"),
        ("'use strict';\nvar a = 'x", "refused BadToken a.js:2\n"),
        (
            "'use strict';\n\nclass A {}",
            "refused NotCore a.js:3 class\n",
        ),
        ("'use strict';\n1 1", "refused NoTree a.js:2\n"),
        (
            "'use strict';\nvar a;\na = q;",
            "refused Unbound a.js:3 q\n",
        ),
        (
            "'use strict';\nrequire('../up');",
            "refused BadRequire a.js:2\n",
        ),
        (
            "'use strict';\nrequire('..');",
            "refused BadRequire a.js:2\n",
        ),
        (
            "'use strict';\nrequire('./b/../c');",
            "read c.js\nread c/index.js\nrefused NoFile c/index.js\n",
        ),
    ];
    for (text, refusal) in rows {
        let found = walk_of(
            rt.alloc(),
            &[
                ("index.js", "'use strict';\nrequire('./a'); require('./z');"),
                ("a.js", text),
                ("z.js", STRICT),
            ],
            0,
        )?;
        let wanted = format!(in rt.alloc();
            "read package.json\nread index.js\nread a.js\nread z.js\n{refusal}"
        )?;
        assert_eq!(rt; found.as_str(), wanted.as_str());
    }
    Ok(())
}

// A text that requires so many files.
fn requiring(alloc: Global, count: u32) -> Result<String, AllocError> {
    let mut text = String::from_str(alloc, STRICT)?;
    for number in 0..count {
        text.push_str(format!(in alloc; "require('./f{number}');")?.as_str())?;
    }
    Ok(text)
}

// The number of files of a package whose entry requires so many others.
fn count_of(alloc: Global, count: u32) -> Result<Result<usize, u64>, Fail> {
    let mut folder = MemFolder::create(alloc)?;
    folder.hold("index.js", requiring(alloc, count)?.as_bytes())?;
    for number in 0..count {
        folder.hold(
            format!(in alloc; "f{number}.js")?.as_str(),
            STRICT.as_bytes(),
        )?;
    }
    match gather(alloc, &mut folder, &default_profile(alloc)?) {
        Ok(package) => Ok(Ok(package.files.as_slice().len())),
        Err(PackFault::TooManyFiles(count)) => Ok(Err(count)),
        Err(_) => Ok(Err(0)),
    }
}

#[test]
fn a_package_has_at_most_256_files(rt: HostRuntime) -> Result<(), Fail> {
    assert_eq!(rt; count_of(rt.alloc(), 255)?, Ok(256));
    assert_eq!(rt; count_of(rt.alloc(), 256)?, Err(257));
    Ok(())
}

// A text of so many spaces behind the directive.
fn spaced(alloc: Global, count: usize) -> Result<String, AllocError> {
    let mut text = String::from_str(alloc, STRICT)?;
    for _ in 0..count {
        text.push_str(" ")?;
    }
    Ok(text)
}

#[test]
fn a_file_has_at_most_1048576_bytes(rt: HostRuntime) -> Result<(), Fail> {
    let alloc = rt.alloc();
    let most = spaced(alloc, 1_048_563)?;
    let over = spaced(alloc, 1_048_564)?;
    let found = walk_of(alloc, &[("index.js", most.as_str())], 0)?;
    assert_eq!(rt;
        found.as_str(),
        "read package.json\nread index.js\nfile 0 index.js\n"
    );
    let found = walk_of(alloc, &[("index.js", over.as_str())], 0)?;
    assert_eq!(rt;
        found.as_str(),
        "read package.json\nread index.js\nrefused TooLong index.js\n"
    );
    let found = walk_of(alloc, &[("package.json", over.as_str())], 0)?;
    assert_eq!(rt;
        found.as_str(),
        "read package.json\nrefused TooLong package.json\n"
    );
    Ok(())
}
