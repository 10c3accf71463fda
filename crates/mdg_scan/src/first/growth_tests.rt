use super::{Fact, Facts, Row, grow, lower, read_form};
use mdg_base::{CellId, Column, FunId, Local, NodeName, SharedId, Site};
use std::alloc::Global;
use std::process::Abort;
use std::test::Fail;

const EXPORTS: Column = Column(0);

fn site(number: u32) -> NodeName {
    NodeName::Site(Site(number))
}

fn fact(row: Row, node: NodeName) -> Fact {
    Fact { row, node }
}

fn local(before: u32, local: u32, node: u32) -> Fact {
    fact(Row::Loc(Site(before), Local(local)), site(node))
}

// The least graph of the file.
fn graph(rt: &impl Abort, alloc: Global, text: &str) -> Result<Facts, Fail> {
    assert!(rt; text.len() <= 4096);
    let form = read_form(alloc, text.as_bytes())?;
    let code = lower(alloc, &form)?;
    assert!(rt; code.lines.as_slice().len() < 100);
    assert!(rt; code.functions.as_slice().len() < 100);
    assert!(rt; code.shared.as_slice().len() < 100);
    Ok(grow(alloc, &code)?)
}

#[test]
fn graph_of_the_directive(rt: HostRuntime) -> Result<(), Fail> {
    let facts = graph(&rt, rt.alloc(), "'use strict';")?;
    let expected = [
        local(1, 2, 0),
        local(2, 2, 0),
        local(2, 3, 1),
        local(3, 2, 2),
        local(3, 3, 1),
        local(4, 2, 2),
        local(4, 3, 1),
        local(5, 0, 2),
        local(5, 2, 2),
        local(5, 3, 1),
        local(6, 0, 2),
        local(6, 1, 1),
        local(6, 2, 2),
        local(6, 3, 1),
        local(7, 0, 2),
        local(7, 1, 1),
        local(7, 3, 1),
        fact(Row::Cell(CellId(0)), site(2)),
        fact(Row::Field(site(2), EXPORTS), site(1)),
        fact(Row::Newer(site(0)), site(2)),
        fact(Row::Exp, site(1)),
    ];
    for fact in &expected {
        assert!(rt; facts.has(fact), "{fact:?}");
    }
    assert_eq!(rt; facts.as_slice().len(), expected.len());
    Ok(())
}

// The function begins at statement 12, its operator is statement 15, and its call is statement 16.
#[test]
fn exported_parameter_goes_into_eval(rt: HostRuntime) -> Result<(), Fail> {
    let text = "'use strict';\nfunction run(a) { eval(a + 'x'); }\nmodule.exports = run;\n";
    let facts = graph(&rt, rt.alloc(), text)?;
    let source = NodeName::Src(FunId(1), 0);
    let expected = [
        fact(Row::Cell(CellId(0)), site(9)),
        fact(Row::IsFunction(FunId(1)), site(6)),
        fact(Row::Exp, site(6)),
        fact(Row::Loc(Site(12), Local(0)), source),
        fact(Row::Known(Site(15)), source),
        fact(Row::Dep(source), site(15)),
        fact(Row::Loc(Site(16), Local(1)), NodeName::Shared(SharedId(0))),
        local(16, 2, 15),
    ];
    for fact in &expected {
        assert!(rt; facts.has(fact), "{fact:?}");
    }
    Ok(())
}

#[test]
fn hidden_function_has_no_source(rt: HostRuntime) -> Result<(), Fail> {
    let text = "'use strict';\nfunction run(a) { eval(a + 'x'); }\n";
    let facts = graph(&rt, rt.alloc(), text)?;
    let source = NodeName::Src(FunId(1), 0);
    assert!(rt; facts.has(&fact(Row::IsFunction(FunId(1)), site(6))));
    assert!(rt; !facts.as_slice().iter().any(|fact| fact.node == source));
    Ok(())
}
