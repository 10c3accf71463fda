//! The statements of a file of the first form.
ghost use Rattle.std.specs.Prelude.{◌≡◌, [], ◌∷◌, ◌++◌, ◌+◌, ◌*◌, ◌<◌, ◌^◌, length, IfOk, IfSome, OnOk};
ghost use Rattle.mdg_scan.specs.CodeShape.{IsWellFormed};
ghost use Rattle.mdg_scan.specs.Lowered.{argument_lines, body_lines, declared_lines, end_lines, exported_lines, function_lines, function_rows, functions_lines, lowered, shared_rows, start_lines, statement_line, undefined};

use super::code::{Code, FunctionRow, Line, SharedRow, Statement};
use super::form::{Export, Form, FormFunction};
use mdg_base::{CellId, Column, FunId, Items, Kind, Local, NoMemory, SharedId, Site, Text};
use std::alloc::Global;

const BODY: FunId = FunId(0);

// The body's locals for the module object and for what it exports.
const MODULE: Local = Local(0);

const EXPORTS: Local = Local(1);

// The property `exports`.
const EXPORTS_COLUMN: Column = Column(0);

// Appends a statement.
fn emit(
    lines: &mut Items<Line>,
    statement: Statement,
    function: FunId,
    line: u32,
) -> Result<(), NoMemory>
    ensures { OnOk result (lines.new ≡ lines.old ++ statement_line statement function line ∷ []) }
{
    lines.push(Line {
        statement,
        function,
        line,
    })
}

fn one_local(alloc: Global, local: Local) -> Result<Items<Local>, NoMemory>
    ensures { IfOk result (λ locals. locals ≡ local ∷ []) }
{
    let mut locals = Items::create(alloc);
    locals.push(local)?;
    Ok(locals)
}

fn two_locals(alloc: Global, one: Local, two: Local) -> Result<Items<Local>, NoMemory>
    ensures { IfOk result (λ locals. locals ≡ one ∷ two ∷ []) }
{
    let mut locals = Items::create(alloc);
    locals.push(one)?;
    locals.push(two)?;
    Ok(locals)
}

// The primitive `undefined`.
fn undefined(alloc: Global, into: Local) -> Result<Statement, NoMemory>
    ensures { IfOk result (λ statement. statement ≡ undefined into) }
{
    Ok(Statement::Literal {
        into,
        text: Some(Text::of(alloc, "undefined")?),
    })
}

// The function ends, and gives `undefined`.
fn lower_end(
    alloc: Global,
    lines: &mut Items<Line>,
    into: Local,
    function: FunId,
    line: u32,
) -> Result<(), NoMemory>
    ensures { OnOk result (lines.new ≡ lines.old ++ end_lines into function line) }
{
    emit(lines, undefined(alloc, into)?, function, line)?;
    emit(lines, Statement::Return { value: into }, function, line)
}

// The module object, its exports object, and the names for both.
fn lower_start(lines: &mut Items<Line>, first: Local, second: Local) -> Result<(), NoMemory>
    ensures { OnOk result (lines.new ≡ lines.old ++ start_lines first second) }
{
    emit(lines, Statement::Object { into: first }, BODY, 1)?;
    emit(lines, Statement::Object { into: second }, BODY, 1)?;
    let exports = Statement::Set {
        of: first,
        column: EXPORTS_COLUMN,
        value: second,
    };
    emit(lines, exports, BODY, 1)?;
    let cell = Statement::SetCell {
        cell: CellId(0),
        value: first,
    };
    emit(lines, cell, BODY, 1)?;
    let module = Statement::Copy {
        into: MODULE,
        of: first,
    };
    emit(lines, module, BODY, 1)?;
    let exports = Statement::Copy {
        into: EXPORTS,
        of: second,
    };
    emit(lines, exports, BODY, 1)
}

// Each declared function is made and stored.
fn lower_declared(
    lines: &mut Items<Line>,
    first: Local,
    functions: &[FormFunction],
) -> Result<(), NoMemory>
    requires { length functions.now < 2 ^ 28 }
    ensures { OnOk result (lines.new ≡ lines.old ++ declared_lines first 1 functions.now) }
{
    for (at, function) in functions.iter().enumerate() {
        let number = at as u32 + 1;
        let made = Statement::Function {
            into: first,
            function: FunId(number),
        };
        emit(lines, made, BODY, function.line)?;
        let stored = Statement::Copy {
            into: Local(number + 1),
            of: first,
        };
        emit(lines, stored, BODY, function.line)?;
    }
    Ok(())
}

// The exported function becomes the property `exports` of the module object.
fn lower_exported(
    lines: &mut Items<Line>,
    first: Local,
    exported: &Option<Export>,
) -> Result<(), NoMemory>
    requires { IfSome exported.now (λ export. export.function < 2 ^ 28) }
    ensures { OnOk result (lines.new ≡ lines.old ++ exported_lines first exported.now) }
{
    let Some(export) = exported else {
        return Ok(());
    };
    let taken = Statement::Copy {
        into: first,
        of: Local(export.function + 2),
    };
    emit(lines, taken, BODY, export.line)?;
    let set = Statement::Set {
        of: MODULE,
        column: EXPORTS_COLUMN,
        value: first,
    };
    emit(lines, set, BODY, export.line)
}

// The statements of the file's body.
fn lower_body(alloc: Global, lines: &mut Items<Line>, form: &Form) -> Result<(), NoMemory>
    requires few { length form.now.functions < 2 ^ 28 }
    requires exported { IfSome form.now.exported (λ export. export.function < length form.now.functions) }
    ensures { OnOk result (lines.new ≡ lines.old ++ body_lines form.now) }
{
    let functions = form.functions.as_slice();
    let count = functions.len() as u32;
    let first = Local(count + 2);
    lower_start(lines, first, Local(count + 3))?;
    lower_declared(lines, first, functions)?;
    lower_exported(lines, first, &form.exported)?;
    lower_end(alloc, lines, first, BODY, 1)
}

// What is handed to `eval`, left in local 2.
fn lower_argument(
    alloc: Global,
    lines: &mut Items<Line>,
    text: &Option<Text>,
    id: FunId,
    line: u32,
) -> Result<(), NoMemory>
    ensures { OnOk result (lines.new ≡ lines.old ++ argument_lines text.now id line) }
{
    let parameter = Statement::Copy {
        into: Local(2),
        of: Local(0),
    };
    emit(lines, parameter, id, line)?;
    let Some(text) = text else {
        return Ok(());
    };
    let text = Some(Text::of(alloc, text.as_str())?);
    let literal = Statement::Literal {
        into: Local(3),
        text,
    };
    emit(lines, literal, id, line)?;
    let of = two_locals(alloc, Local(2), Local(3))?;
    emit(lines, Statement::Op { into: Local(2), of }, id, line)
}

// A declared function's statements.
fn lower_function(
    alloc: Global,
    lines: &mut Items<Line>,
    function: &FormFunction,
    id: FunId,
) -> Result<(), NoMemory>
    ensures { OnOk result (lines.new ≡ lines.old ++ function_lines id function.now) }
{
    let line = function.line;
    let shared = Statement::Shared {
        into: Local(1),
        shared: SharedId(0),
    };
    emit(lines, shared, id, line)?;
    lower_argument(alloc, lines, &function.text, id, line)?;
    let arguments = one_local(alloc, Local(2))?;
    let call = Statement::Call {
        into: Local(1),
        callee: Local(1),
        arguments,
    };
    emit(lines, call, id, line)?;
    emit(lines, Statement::Land, id, line)?;
    lower_end(alloc, lines, Local(1), id, line)
}

// The statements of all declared functions, which are numbered from 1, and a row for each.
fn lower_functions(
    alloc: Global,
    lines: &mut Items<Line>,
    rows: &mut Items<FunctionRow>,
    functions: &[FormFunction],
) -> Result<(), NoMemory>
    requires { length lines.old + 8 * length functions.now < 2 ^ 32 }
    ensures statements { OnOk result (lines.new ≡ lines.old ++ functions_lines 1 functions.now) }
    ensures entries { OnOk result (rows.new ≡ rows.old ++ function_rows 1 (length lines.old) functions.now) }
{
    for (at, function) in functions.iter().enumerate() {
        rows.push(FunctionRow {
            parameters: 1,
            entry: Site(lines.as_slice().len() as u32),
        })?;
        lower_function(alloc, lines, function, FunId(at as u32 + 1))?;
    }
    Ok(())
}

// The shared things that a statement names: `eval`, which runs its first argument, where there is a function.
fn shared_rows(alloc: Global, functions: &[FormFunction]) -> Result<Items<SharedRow>, NoMemory>
    ensures { IfOk result (λ rows. rows ≡ shared_rows functions.now) }
{
    let mut rows = Items::create(alloc);
    if functions.is_empty() {
        return Ok(rows);
    }
    let mut arguments = Items::create(alloc);
    arguments.push(0)?;
    rows.push(SharedRow {
        name: Text::of(alloc, "eval")?,
        kind: Kind::Sink(arguments),
    })?;
    Ok(rows)
}

/// The code of a file of the first form.
pub fn lower(alloc: Global, form: &Form) -> Result<Code, NoMemory>
    requires few { length form.now.functions < 2 ^ 28 }
    requires exported { IfSome form.now.exported (λ export. export.function < length form.now.functions) }
    ensures code { IfOk result (λ code. code ≡ lowered form.now) }
    ensures shape { IfOk result IsWellFormed }
{
    let mut lines = Items::create(alloc);
    lower_body(alloc, &mut lines, form)?;
    let mut functions = Items::create(alloc);
    functions.push(FunctionRow {
        parameters: 0,
        entry: Site(0),
    })?;
    lower_functions(alloc, &mut lines, &mut functions, form.functions.as_slice())?;
    let shared = shared_rows(alloc, form.functions.as_slice())?;
    Ok(Code {
        lines,
        functions,
        shared,
    })
}
