//! The lines of one instruction each, of names, and of calls of `require`.

ghost use Rattle.std.specs.Prelude.{◌≡◌, ◌+◌, [], ◌∷◌, Some, None, OnOk, IfOk, codes};
ghost use Rattle.mdg_lower.specs.declared.draft.Draft.TheVariants as draft;
ghost use Rattle.mdg_lower.specs.declared.scope.Dependency.TheVariants as w;
ghost use Rattle.mdg_lower.specs.Builder.{Emits};
ghost use Rattle.mdg_lower.specs.Builder as builder;
ghost use Rattle.mdg_lower.specs.Lookup as lookup;
ghost use Rattle.mdg_lower.specs.Instructions as instructions;
ghost use Rattle.mdg_lower.specs.Access as access;

use crate::builder::push;
use crate::draft::{Draft, DraftLine};
use crate::lookup::{dependency_at, function_at, increment, meaning, temp};
use crate::scope::{Dependency, Meaning, Scope};
use mdg_base::{CellId, FileId, Home, Items, Local, NoMemory, Text};
use mdg_code::Statement;
use mdg_tree::At;
use std::alloc::Global;

/// Appends a complete statement.
pub fn push_statement<'a>(
    lines: &mut Vec<DraftLine>,
    scope: &Scope<'a>,
    at: At,
    statement: Statement,
) -> Result<(), NoMemory>
    ensures { OnOk result (Emits
        (builder.one scope.now at (instructions.complete statement))
        lines.old.items lines.new.items) }
{
    push(lines, scope, at, Draft::Complete(statement))
}

/// A primitive that is this text.
#[tactic(auto, unfolding(crate::specs::Instructions::literal))]
pub fn literal<'a>(
    lines: &mut Vec<DraftLine>,
    scope: &Scope<'a>,
    alloc: Global,
    at: At,
    text: &str,
    dest: u32,
) -> Result<(), NoMemory>
    ensures { OnOk result (Emits
        (instructions.literal scope.now at (Some text.now) dest)
        lines.old.items lines.new.items) }
{
    let text = Some(Text::of(alloc, text)?);
    push_statement(
        lines,
        scope,
        at,
        Statement::Literal {
            into: temp(scope, dest)?,
            text,
        },
    )
}

/// Any primitive.
#[tactic(auto, unfolding(crate::specs::Instructions::literal))]
pub fn any_primitive<'a>(
    lines: &mut Vec<DraftLine>,
    scope: &Scope<'a>,
    at: At,
    dest: u32,
) -> Result<(), NoMemory>
    ensures { OnOk result (Emits (instructions.literal scope.now at None dest) lines.old.items lines.new.items) }
{
    push_statement(
        lines,
        scope,
        at,
        Statement::Literal {
            into: temp(scope, dest)?,
            text: None,
        },
    )
}

/// One local becomes another.
#[tactic(auto, unfolding(crate::specs::Instructions::copy))]
pub fn copy<'a>(
    lines: &mut Vec<DraftLine>,
    scope: &Scope<'a>,
    at: At,
    into: Local,
    of: Local,
) -> Result<(), NoMemory>
    ensures { OnOk result (Emits (instructions.copy scope.now at into of) lines.old.items lines.new.items) }
{
    push_statement(lines, scope, at, Statement::Copy { into, of })
}

/// What an operator gives for the operands.
#[tactic(auto, unfolding(crate::specs::Instructions::operate))]
pub fn operate<'a>(
    lines: &mut Vec<DraftLine>,
    scope: &Scope<'a>,
    at: At,
    dest: u32,
    of: Items<Local>,
) -> Result<(), NoMemory>
    ensures { OnOk result (Emits (instructions.operate scope.now at dest of) lines.old.items lines.new.items) }
{
    push_statement(
        lines,
        scope,
        at,
        Statement::Op {
            into: temp(scope, dest)?,
            of,
        },
    )
}

/// What an operator gives for one local.
pub fn operate_on_local<'a>(
    lines: &mut Vec<DraftLine>,
    scope: &Scope<'a>,
    alloc: Global,
    at: At,
    dest: u32,
    of: Local,
) -> Result<(), NoMemory>
    ensures { OnOk result (Emits (instructions.operate scope.now at dest (of ∷ [])) lines.old.items lines.new.items) }
{
    let mut operands = Items::create(alloc);
    operands.push(of)?;
    operate(lines, scope, at, dest, operands)
}

/// What an operator gives for one temporary.
pub fn operate_on_one<'a>(
    lines: &mut Vec<DraftLine>,
    scope: &Scope<'a>,
    alloc: Global,
    at: At,
    dest: u32,
    of: u32,
) -> Result<(), NoMemory>
    ensures { OnOk result (Emits
        (instructions.operate scope.now at dest (lookup.temp scope.now of ∷ []))
        lines.old.items lines.new.items) }
{
    let mut operands = Items::create(alloc);
    operands.push(temp(scope, of)?)?;
    operate(lines, scope, at, dest, operands)
}

/// A temporary becomes what an operator gives for it.
#[tactic(auto, unfolding(crate::specs::Instructions::operate_on))]
pub fn operate_on<'a>(
    lines: &mut Vec<DraftLine>,
    scope: &Scope<'a>,
    alloc: Global,
    at: At,
    dest: u32,
) -> Result<(), NoMemory>
    ensures { OnOk result (Emits (instructions.operate_on scope.now at dest) lines.old.items lines.new.items) }
{
    operate_on_one(lines, scope, alloc, at, dest, dest)
}

/// A temporary becomes what an operator gives for it and another.
pub fn operate_on_two<'a>(
    lines: &mut Vec<DraftLine>,
    scope: &Scope<'a>,
    alloc: Global,
    at: At,
    dest: u32,
    right: u32,
) -> Result<(), NoMemory>
    ensures { OnOk result (Emits
        (instructions.operate scope.now at dest (lookup.temp scope.now dest ∷ lookup.temp scope.now right ∷ []))
        lines.old.items lines.new.items) }
{
    let mut operands = Items::create(alloc);
    operands.push(temp(scope, dest)?)?;
    operands.push(temp(scope, right)?)?;
    operate(lines, scope, at, dest, operands)
}

/// A property with a static name.
#[tactic(auto, unfolding(crate::specs::Instructions::get_from))]
pub fn get_from<'a>(
    lines: &mut Vec<DraftLine>,
    scope: &Scope<'a>,
    alloc: Global,
    at: At,
    dest: u32,
    of: Local,
    name: &str,
) -> Result<(), NoMemory>
    ensures { OnOk result (Emits
        (instructions.get_from scope.now at dest of name.now)
        lines.old.items lines.new.items) }
{
    let name = Text::of(alloc, name)?;
    push(
        lines,
        scope,
        at,
        Draft::Get {
            into: temp(scope, dest)?,
            of,
            name,
        },
    )
}

/// A property with a static name becomes the value.
#[tactic(auto, unfolding(crate::specs::Instructions::set_to))]
pub fn set_to<'a>(
    lines: &mut Vec<DraftLine>,
    scope: &Scope<'a>,
    alloc: Global,
    at: At,
    of: Local,
    name: &str,
    value: Local,
) -> Result<(), NoMemory>
    ensures { OnOk result (Emits (instructions.set_to scope.now at of name.now value) lines.old.items lines.new.items) }
{
    let name = Text::of(alloc, name)?;
    push(lines, scope, at, Draft::Set { of, name, value })
}

/// A property whose name a temporary gives.
#[tactic(auto, unfolding(crate::specs::Instructions::get_at_from))]
pub fn get_at_from<'a>(
    lines: &mut Vec<DraftLine>,
    scope: &Scope<'a>,
    at: At,
    dest: u32,
    of: Local,
    key: u32,
) -> Result<(), NoMemory>
    ensures { OnOk result (Emits (instructions.get_at_from scope.now at dest of key) lines.old.items lines.new.items) }
{
    let into = temp(scope, dest)?;
    push_statement(
        lines,
        scope,
        at,
        Statement::GetAt {
            into,
            of,
            key: temp(scope, key)?,
        },
    )
}

/// A property whose name a temporary gives becomes the value.
#[tactic(auto, unfolding(crate::specs::Instructions::set_at_to))]
pub fn set_at_to<'a>(
    lines: &mut Vec<DraftLine>,
    scope: &Scope<'a>,
    at: At,
    of: Local,
    key: u32,
    value: Local,
) -> Result<(), NoMemory>
    ensures { OnOk result (Emits (instructions.set_at_to scope.now at of key value) lines.old.items lines.new.items) }
{
    push_statement(
        lines,
        scope,
        at,
        Statement::SetAt {
            of,
            key: temp(scope, key)?,
            value,
        },
    )
}

/// A new object.
#[tactic(auto, unfolding(crate::specs::Instructions::object))]
pub fn object<'a>(
    lines: &mut Vec<DraftLine>,
    scope: &Scope<'a>,
    at: At,
    dest: u32,
) -> Result<(), NoMemory>
    ensures { OnOk result (Emits (instructions.object scope.now at dest) lines.old.items lines.new.items) }
{
    push_statement(
        lines,
        scope,
        at,
        Statement::Object {
            into: temp(scope, dest)?,
        },
    )
}

/// A new function object, of the function whose keyword stands there.
#[tactic(auto, unfolding(crate::specs::Instructions::function_value))]
pub fn function_value<'a>(
    lines: &mut Vec<DraftLine>,
    scope: &Scope<'a>,
    at: At,
    keyword: At,
    dest: u32,
) -> Result<(), NoMemory>
    ensures { OnOk result (Emits
        (instructions.function_value scope.now at keyword dest)
        lines.old.items lines.new.items) }
{
    let into = temp(scope, dest)?;
    let function = function_at(scope, keyword.offset)?;
    push_statement(lines, scope, at, Statement::Function { into, function })
}

/// A global or a module.
fn shared<'a>(
    lines: &mut Vec<DraftLine>,
    scope: &Scope<'a>,
    alloc: Global,
    at: At,
    home: Home,
    name: &str,
    dest: u32,
) -> Result<(), NoMemory>
    ensures { OnOk result (Emits
        (builder.one scope.now at (draft.Shared (lookup.temp scope.now dest) home name.now))
        lines.old.items lines.new.items) }
{
    let name = Text::of(alloc, name)?;
    push(
        lines,
        scope,
        at,
        Draft::Shared {
            into: temp(scope, dest)?,
            home,
            name,
        },
    )
}

/// The value of a name.
#[tactic(auto, unfolding(crate::specs::Instructions::load_name, crate::specs::Instructions::global))]
pub fn load_name<'a>(
    lines: &mut Vec<DraftLine>,
    scope: &Scope<'a>,
    alloc: Global,
    at: At,
    name: &str,
    dest: u32,
) -> Result<(), NoMemory>
    ensures { OnOk result (Emits (instructions.load_name scope.now at name.now dest) lines.old.items lines.new.items) }
{
    match meaning(scope, name)? {
        Meaning::Local(of, _) => copy(lines, scope, at, temp(scope, dest)?, of),
        Meaning::Cell(cell, _) => {
            let into = temp(scope, dest)?;
            push_statement(lines, scope, at, Statement::Cell { into, cell })
        }
        Meaning::Literal => literal(lines, scope, alloc, at, name, dest),
        Meaning::Global => shared(lines, scope, alloc, at, Home::Global, name, dest),
        Meaning::Require | Meaning::Nothing => {
            operate(lines, scope, at, dest, Items::create(alloc))
        }
    }
}

/// The name becomes the value. A function expression's own name can't, and throws.
#[tactic(auto, unfolding(crate::specs::Instructions::store_name))]
pub fn store_name<'a>(
    lines: &mut Vec<DraftLine>,
    scope: &Scope<'a>,
    at: At,
    name: &str,
    value: Local,
) -> Result<(), NoMemory>
    ensures { OnOk result (Emits
        (instructions.store_name scope.now at name.now value)
        lines.old.items lines.new.items) }
{
    match meaning(scope, name)? {
        Meaning::Local(into, false) => copy(lines, scope, at, into, value),
        Meaning::Cell(cell, false) => {
            push_statement(lines, scope, at, Statement::SetCell { cell, value })
        }
        Meaning::Local(_, true)
        | Meaning::Cell(_, true)
        | Meaning::Require
        | Meaning::Literal
        | Meaning::Global
        | Meaning::Nothing => push_statement(lines, scope, at, Statement::Throw { value }),
    }
}

/// The value of an assignment is moved to its temporary, where it is not there.
#[tactic(auto, using(crate::proofs::Growth::growth))]
pub fn move_result<'a>(
    lines: &mut Vec<DraftLine>,
    scope: &Scope<'a>,
    at: At,
    stable: Option<Local>,
    dest: u32,
) -> Result<(), NoMemory>
    ensures { OnOk result (Emits (access.move_result scope.now at stable dest) lines.old.items lines.new.items) }
{
    match stable {
        Some(_) => Ok(()),
        None => copy(
            lines,
            scope,
            at,
            temp(scope, dest)?,
            temp(scope, increment(dest)?)?,
        ),
    }
}

/// The exports of a file, which runs first.
#[tactic(auto, using(crate::proofs::Growth::growth))]
fn require_file<'a>(
    lines: &mut Vec<DraftLine>,
    scope: &Scope<'a>,
    alloc: Global,
    at: At,
    file: FileId,
    cell: CellId,
    dest: u32,
) -> Result<(), NoMemory>
    ensures { OnOk result (Emits
        (instructions.require_by scope.now at (Some (w.File file cell)) dest)
        lines.old.items lines.new.items) }
{
    push_statement(lines, scope, at, Statement::Load { file })?;
    push_statement(lines, scope, at, Statement::Land)?;
    let into = temp(scope, dest)?;
    push_statement(lines, scope, at, Statement::Cell { into, cell })?;
    get_from(lines, scope, alloc, at, dest, into, "exports")
}

/// What the call of `require` gives whose name `require` stands at this offset.
#[tactic(auto, unfolding(crate::specs::Instructions::require))]
pub fn require<'a>(
    lines: &mut Vec<DraftLine>,
    scope: &Scope<'a>,
    alloc: Global,
    at: At,
    offset: u32,
    dest: u32,
) -> Result<(), NoMemory>
    ensures { OnOk result (Emits (instructions.require scope.now at offset dest) lines.old.items lines.new.items) }
{
    match dependency_at(scope, offset) {
        Some(Dependency::Module(name)) => shared(
            lines,
            scope,
            alloc,
            at,
            Home::Module,
            name.as_str(),
            dest,
        ),
        Some(Dependency::File(file, cell)) => require_file(
            lines, scope, alloc, at, *file, *cell, dest,
        ),
        None => operate(lines, scope, at, dest, Items::create(alloc)),
    }
}
