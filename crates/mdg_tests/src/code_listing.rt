//! Code as lines, for tests.

use mdg_base::{FunId, Home, Kind, Local, Place, Text};
use mdg_code::{Code, FileRow, FunctionRow, Line, SharedRow, Statement};
use std::alloc::{AllocError, Global};

fn text_of(text: &Option<Text>) -> &str {
    match text {
        Some(text) => text.as_str(),
        None => "-",
    }
}

fn locals(alloc: Global, all: &[Local]) -> Result<String, AllocError> {
    let mut out = String::new(alloc);
    for local in all {
        out.push_str(format!(in alloc; " l{}", local.0)?.as_str())?;
    }
    Ok(out)
}

fn called(
    alloc: Global,
    callee: Local,
    receiver: Option<Local>,
    arguments: &[Local],
) -> Result<String, AllocError> {
    let arguments = locals(alloc, arguments)?;
    let arguments = arguments.as_str();
    match receiver {
        Some(of) => format!(in alloc; "call l{} on l{} with{arguments}", callee.0, of.0),
        None => format!(in alloc; "call l{} with{arguments}", callee.0),
    }
}

// A statement that gives a value to a local, without the local.
fn value_of(alloc: Global, statement: &Statement) -> Result<String, AllocError> {
    match statement {
        Statement::Literal { text, .. } => format!(in alloc; "literal {}", text_of(text)),
        Statement::Copy { of, .. } => format!(in alloc; "l{}", of.0),
        Statement::Op { of, .. } => {
            format!(in alloc; "op{}", locals(alloc, of.as_slice())?.as_str())
        }
        Statement::Object { .. } => format!(in alloc; "object"),
        Statement::Function { function, .. } => format!(in alloc; "function {}", function.0),
        Statement::Own { .. } => format!(in alloc; "own"),
        Statement::Shared { shared, .. } => format!(in alloc; "shared {}", shared.0),
        Statement::Get { of, name, .. } => format!(in alloc; "l{}.{}", of.0, name.as_str()),
        Statement::GetAt { of, key, .. } => format!(in alloc; "l{}[l{}]", of.0, key.0),
        Statement::Cell { cell, .. } => format!(in alloc; "cell {}", cell.0),
        Statement::Call {
            callee,
            receiver,
            arguments,
            ..
        } => called(alloc, *callee, *receiver, arguments.as_slice()),
        Statement::Set { .. }
        | Statement::SetAt { .. }
        | Statement::SetCell { .. }
        | Statement::Branch { .. }
        | Statement::Land
        | Statement::Return { .. }
        | Statement::Load { .. }
        | Statement::Throw { .. } => format!(in alloc; "no value"),
    }
}

fn statement_text(alloc: Global, statement: &Statement) -> Result<String, AllocError> {
    match statement {
        Statement::Literal { into, .. }
        | Statement::Copy { into, .. }
        | Statement::Op { into, .. }
        | Statement::Object { into }
        | Statement::Function { into, .. }
        | Statement::Own { into }
        | Statement::Shared { into, .. }
        | Statement::Get { into, .. }
        | Statement::GetAt { into, .. }
        | Statement::Cell { into, .. }
        | Statement::Call { into, .. } => {
            let value = value_of(alloc, statement)?;
            format!(in alloc; "l{} = {}", into.0, value.as_str())
        }
        Statement::Set {
            of,
            name,
            value,
            ..
        } => format!(in alloc; "l{}.{} = l{}", of.0, name.as_str(), value.0),
        Statement::SetAt { of, key, value } => {
            format!(in alloc; "l{}[l{}] = l{}", of.0, key.0, value.0)
        }
        Statement::SetCell { cell, value } => format!(in alloc; "cell {} = l{}", cell.0, value.0),
        Statement::Branch { left, right } => format!(in alloc; "branch {} {}", left.0, right.0),
        Statement::Land => format!(in alloc; "land"),
        Statement::Return { value } => format!(in alloc; "return l{}", value.0),
        Statement::Load { file } => format!(in alloc; "load {}", file.0),
        Statement::Throw { value } => format!(in alloc; "throw l{}", value.0),
    }
}

// The line and the offset, behind the number of the file where that isn't the entry.
fn place_text(alloc: Global, place: &Place) -> Result<String, AllocError> {
    match place.file.0 {
        0 => format!(in alloc; "{}:{}", place.line, place.offset),
        file => format!(in alloc; "file {file} {}:{}", place.line, place.offset),
    }
}

fn line_text(alloc: Global, site: usize, line: &Line) -> Result<String, AllocError> {
    let place = place_text(alloc, &line.place)?;
    let statement = statement_text(alloc, &line.statement)?;
    format!(in alloc; "{site} at {} {}\n", place.as_str(), statement.as_str())
}

fn number_of(alloc: Global, function: Option<FunId>) -> Result<String, AllocError> {
    match function {
        Some(function) => format!(in alloc; "{}", function.0),
        None => format!(in alloc; "-"),
    }
}

fn function_text(alloc: Global, number: usize, row: &FunctionRow) -> Result<String, AllocError> {
    let mut out = format!(in alloc;
        "function {number} in {} at {} sites {}..{} locals {} {}",
        number_of(alloc, row.parent)?.as_str(),
        place_text(alloc, &row.place)?.as_str(),
        row.entry.0,
        row.end.0,
        row.locals,
        text_of(&row.name)
    )?;
    for parameter in row.parameters.as_slice() {
        out.push_str(" ")?;
        out.push_str(parameter.as_str())?;
    }
    out.push_str("\n")?;
    Ok(out)
}

fn add_functions(alloc: Global, out: &mut String, code: &Code) -> Result<(), AllocError> {
    for (number, row) in code.functions.as_slice().iter().enumerate() {
        out.push_str(function_text(alloc, number, row)?.as_str())?;
    }
    Ok(())
}

fn add_cells(alloc: Global, out: &mut String, cells: &[FunId]) -> Result<(), AllocError> {
    out.push_str("cells of")?;
    for function in cells {
        out.push_str(format!(in alloc; " {}", function.0)?.as_str())?;
    }
    out.push_str("\n")?;
    Ok(())
}

fn add_files(alloc: Global, out: &mut String, files: &[FileRow]) -> Result<(), AllocError> {
    for (number, row) in files.iter().enumerate() {
        let path = row.path.as_str();
        let line = format!(in alloc;
            "file {number} {path} body {} module cell {}\n",
            row.body.0, row.module.0
        )?;
        out.push_str(line.as_str())?;
    }
    Ok(())
}

fn kind_text(alloc: Global, kind: &Kind) -> Result<String, AllocError> {
    let mut out = String::new(alloc);
    match kind {
        Kind::Quiet => out.push_str("quiet")?,
        Kind::Active => out.push_str("active")?,
        Kind::Sink(arguments) => {
            out.push_str("sink")?;
            for argument in arguments.as_slice() {
                out.push_str(format!(in alloc; " {argument}")?.as_str())?;
            }
        }
    }
    Ok(out)
}

fn shared_text(alloc: Global, number: usize, row: &SharedRow) -> Result<String, AllocError> {
    let home = match row.home {
        Home::Global => "global",
        Home::Module => "module",
    };
    let mut out = format!(in alloc; "shared {number} {home} {}", row.name.as_str())?;
    if let Some(member) = &row.member {
        out.push_str(".")?;
        out.push_str(member.as_str())?;
    }
    let kind = kind_text(alloc, &row.kind)?;
    out.push_str(format!(in alloc; " {} of {}\n", kind.as_str(), row.base.0)?.as_str())?;
    Ok(out)
}

fn add_shared(alloc: Global, out: &mut String, shared: &[SharedRow]) -> Result<(), AllocError> {
    for (number, row) in shared.iter().enumerate() {
        out.push_str(shared_text(alloc, number, row)?.as_str())?;
    }
    Ok(())
}

/// The statements, the functions, the functions of the cells, the files, and the shared things. It leaves out what `valid`
/// ties to these: the columns, and the functions in which the statements lie.
pub fn listed(alloc: Global, code: &Code) -> Result<String, AllocError> {
    let mut out = String::new(alloc);
    for (site, line) in code.lines.as_slice().iter().enumerate() {
        out.push_str(line_text(alloc, site, line)?.as_str())?;
    }
    add_functions(alloc, &mut out, code)?;
    add_cells(alloc, &mut out, code.cells.as_slice())?;
    add_files(alloc, &mut out, code.files.as_slice())?;
    add_shared(alloc, &mut out, code.shared.as_slice())?;
    Ok(out)
}
