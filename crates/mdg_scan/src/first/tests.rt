use super::{FormRefusal, Statement, lower, read_form};
use mdg_base::Local;
use std::test::Fail;

#[test]
fn refusals(rt: HostRuntime) -> Result<(), Fail> {
    let rows = [
        ("", FormRefusal::NotStrict),
        ("\n'use strict';", FormRefusal::NotStrict),
        ("'use strict'; \n", FormRefusal::NotStrict),
        ("'use strict';\n\n", FormRefusal::NoTree(2)),
        (
            "'use strict';\nfunction f(if) { eval(if); }",
            FormRefusal::NoTree(2),
        ),
        (
            "'use strict';\nfunction f(a) { eval(b); }",
            FormRefusal::NoTree(2),
        ),
        (
            "'use strict';\nfunction f(a) { eval(a); }\nfunction f(b) { eval(b); }",
            FormRefusal::NoTree(3),
        ),
        (
            "'use strict';\nmodule.exports = f;\n",
            FormRefusal::NoTree(2),
        ),
        (
            "'use strict';\nfunction f(a) { eval(a); }\nmodule.exports = f;\n\n",
            FormRefusal::NoTree(4),
        ),
    ];
    for (text, wanted) in rows {
        assert!(rt; text.len() <= 4096);
        let refusal = read_form(rt.alloc(), text.as_bytes()).err();
        assert_eq!(rt; refusal, Some(wanted), "for {text:?}");
    }
    Ok(())
}

#[test]
fn directive_alone(rt: HostRuntime) -> Result<(), Fail> {
    let form = read_form(rt.alloc(), b"'use strict';")?;
    let code = lower(rt.alloc(), &form)?;
    assert_eq!(rt; code.lines.as_slice().len(), 8);
    assert_eq!(rt; code.functions.as_slice().len(), 1);
    assert_eq!(rt; code.shared.as_slice().len(), 0);
    Ok(())
}

#[test]
fn one_function(rt: HostRuntime) -> Result<(), Fail> {
    let text = b"'use strict';\nfunction run(a) { eval(a + 'x'); }\nmodule.exports = run;\n";
    let form = read_form(rt.alloc(), text)?;
    let code = lower(rt.alloc(), &form)?;
    let lines = code.lines.as_slice();
    assert_eq!(rt; lines.len(), 20);
    assert_eq!(rt; lines[9].line, 3);
    assert!(rt;
        matches!(
            &lines[9].statement,
            Statement::Set {
                of: Local(0),
                value: Local(3),
                ..
            }
        )
    );
    assert_eq!(rt; lines[16].line, 2);
    assert!(rt;
        matches!(
            &lines[16].statement,
            Statement::Call {
                callee: Local(1),
                ..
            }
        )
    );
    let functions = code.functions.as_slice();
    assert_eq!(rt; functions.len(), 2);
    assert_eq!(rt; functions[1].entry.0, 12);
    let shared = code.shared.as_slice();
    assert_eq!(rt; shared.len(), 1);
    assert_eq!(rt; shared[0].name.as_str(), "eval");
    Ok(())
}
