use crate::{Row, SiteRefusal, layout};
use mdg_base::{
    CellId, Column, FileId, FunId, Items, Local, NoMemory, Node, NodeName, Place, SharedId, Site,
    Text,
};
use mdg_code::{Code, FileRow, FunctionRow, Line, Statement, valid};
use std::alloc::Global;
use std::test::Fail;

const PLACE: Place = Place {
    file: FileId(0),
    line: 1,
    offset: 0,
};

fn add(lines: &mut Items<Line>, statement: Statement) -> Result<(), NoMemory> {
    lines.push(Line {
        statement,
        place: PLACE,
        function: FunId(0),
    })
}

// One body of one file, with these lines up to the last site, so many locals and these columns.
fn one_body(
    alloc: Global,
    lines: Items<Line>,
    end: Site,
    locals: u32,
    columns: Items<Text>,
) -> Result<Code, NoMemory> {
    let mut functions = Items::create(alloc);
    functions.push(FunctionRow {
        name: None,
        place: PLACE,
        parameters: Items::create(alloc),
        locals,
        entry: Site(0),
        end,
        parent: None,
    })?;
    let mut cells = Items::create(alloc);
    cells.push(FunId(0))?;
    let mut files = Items::create(alloc);
    files.push(FileRow {
        path: Text::of(alloc, "index.js")?,
        body: FunId(0),
        module: CellId(0),
    })?;
    Ok(Code {
        lines,
        functions,
        cells,
        files,
        columns,
        shared: Items::create(alloc),
    })
}

// It makes an object, looks up its property `p` and calls what it finds.
fn caller(alloc: Global) -> Result<Code, NoMemory> {
    let mut lines = Items::create(alloc);
    add(&mut lines, Statement::Object { into: Local(0) })?;
    add(
        &mut lines,
        Statement::Get {
            into: Local(1),
            of: Local(0),
            name: Text::of(alloc, "p")?,
            column: Column(0),
        },
    )?;
    add(
        &mut lines,
        Statement::Call {
            into: Local(2),
            callee: Local(1),
            receiver: None,
            arguments: Items::create(alloc),
        },
    )?;
    add(&mut lines, Statement::Land)?;
    add(&mut lines, Statement::Return { value: Local(2) })?;
    let mut columns = Items::create(alloc);
    columns.push(Text::of(alloc, "p")?)?;
    one_body(alloc, lines, Site(4), 3, columns)
}

// It makes so many objects; there are so many columns.
fn maker(alloc: Global, objects: u32, names: u32) -> Result<Code, NoMemory> {
    let mut lines = Items::create(alloc);
    for _ in 0..objects {
        add(&mut lines, Statement::Object { into: Local(0) })?;
    }
    add(&mut lines, Statement::Return { value: Local(0) })?;
    let mut columns = Items::create(alloc);
    for length in 0..names {
        let mut name = Text::of(alloc, "n")?;
        for _ in 0..length {
            name.add("n")?;
        }
        columns.push(name)?;
    }
    one_body(alloc, lines, Site(objects), 1, columns)
}

#[test]
fn rows_have_their_numbers(rt: HostRuntime) -> Result<(), Fail> {
    let code = caller(rt.alloc())?;
    assert!(rt; valid(&code));
    let layout = layout(rt.alloc(), &code)?;
    assert_eq!(rt;
        (
            layout.nodes(),
            layout.rows(),
            layout.width(),
            layout.words()
        ),
        (5, 40, 1, 40)
    );
    assert_eq!(rt; layout.row_of(Row::Loc(Site(4), Local(2))), Some(14));
    assert_eq!(rt;
        layout.row_of(Row::Field(NodeName::Ext(Site(1)), Column(1))),
        Some(19)
    );
    assert_eq!(rt;
        layout.row_of(Row::Field(NodeName::Site(Site(1)), Column(0))),
        None
    );
    assert_eq!(rt; layout.row_of(Row::Known(Site(2))), Some(35));
    assert_eq!(rt; layout.row_of(Row::Foreign), Some(39));
    assert_eq!(rt; layout.row_of(Row::Newer(NodeName::Caller)), None);
    assert!(rt; layout.rows() == 40);
    assert_eq!(rt;
        layout.row_at(19),
        Row::Field(NodeName::Ext(Site(1)), Column(1))
    );
    assert_eq!(rt; layout.row_at(35), Row::Known(Site(2)));
    Ok(())
}

#[test]
fn nodes_have_their_numbers(rt: HostRuntime) -> Result<(), Fail> {
    let code = caller(rt.alloc())?;
    assert!(rt; valid(&code));
    let layout = layout(rt.alloc(), &code)?;
    assert_eq!(rt;
        (
            layout.site_node(Site(1)),
            layout.ext_node(Site(1)),
            layout.ext_node(Site(2))
        ),
        (Some(Node(1)), Some(Node(2)), Some(Node(4)))
    );
    assert_eq!(rt;
        (
            layout.site_node(Site(3)),
            layout.ext_node(Site(0)),
            layout.site_node(Site(9))
        ),
        (None, None, None)
    );
    assert_eq!(rt;
        (
            layout.src_node(FunId(0), 0),
            layout.shared_node(SharedId(0))
        ),
        (None, None)
    );
    assert!(rt; layout.nodes() == 5);
    assert_eq!(rt; layout.name_of(Node(4)), NodeName::Ext(Site(2)));
    assert!(rt; layout.rows() == 40);
    assert_eq!(rt; layout.word_of(19, Node(4)), (19, 16));
    assert_eq!(rt; layout.word_of(39, Node(0)), (39, 1));
    Ok(())
}

#[test]
fn too_many_nodes_are_refused(rt: HostRuntime) -> Result<(), Fail> {
    let code = maker(rt.alloc(), 16_385, 0)?;
    assert!(rt; valid(&code));
    assert_eq!(rt;
        layout(rt.alloc(), &code).err(),
        Some(SiteRefusal::TooManyNodes(16_385))
    );
    Ok(())
}

#[test]
fn too_many_words_are_refused(rt: HostRuntime) -> Result<(), Fail> {
    let code = maker(rt.alloc(), 16_384, 30)?;
    assert!(rt; valid(&code));
    assert_eq!(rt;
        layout(rt.alloc(), &code).err(),
        Some(SiteRefusal::TooManyWords(142_608_128))
    );
    Ok(())
}
