//! How many locals the drafts of a function need.

ghost use Rattle.std.specs.Prelude.{◌≡◌, max, IfOk};
ghost use Rattle.mdg_lower.specs.FrameSize as sizes;

use crate::draft::{Draft, DraftLine};
use crate::lookup::increment;
use mdg_base::{Local, NoMemory};
use mdg_code::Statement;

fn size_for(local: Local) -> Result<u32, NoMemory>
    ensures { IfOk result (λ n. n ≡ sizes.size_for local) }
{
    increment(local.0)
}

fn size_for_two(one: Local, other: Local) -> Result<u32, NoMemory>
    ensures { IfOk result (λ n. n ≡ max (sizes.size_for one) (sizes.size_for other)) }
{
    Ok(size_for(one)?.max(size_for(other)?))
}

fn size_for_three(one: Local, two: Local, three: Local) -> Result<u32, NoMemory>
    ensures { IfOk result (λ n. n ≡ max (sizes.size_for one) (max (sizes.size_for two) (sizes.size_for three))) }
{
    Ok(size_for(one)?.max(size_for_two(two, three)?))
}

fn size_for_all(least: u32, locals: &[Local]) -> Result<u32, NoMemory>
    ensures { IfOk result (λ n. n ≡ sizes.size_for_all least locals.now) }
{
    let mut most = least;
    for local in locals {
        most = most.max(size_for(*local)?);
    }
    Ok(most)
}

fn size_for_receiver(receiver: Option<Local>) -> Result<u32, NoMemory>
    ensures { IfOk result (λ n. n ≡ sizes.size_for_receiver receiver) }
{
    match receiver {
        Some(local) => size_for(local),
        None => Ok(0),
    }
}

fn size_for_call(
    into: Local,
    callee: Local,
    receiver: Option<Local>,
    arguments: &[Local],
) -> Result<u32, NoMemory>
    ensures { IfOk result (λ n. n ≡ sizes.size_for_all (max (sizes.size_for into)
        (max (sizes.size_for callee) (sizes.size_for_receiver receiver))) arguments.now) }
{
    let least = size_for(into)?.max(size_for(callee)?.max(size_for_receiver(receiver)?));
    size_for_all(least, arguments)
}

fn size_for_statement(statement: &Statement) -> Result<u32, NoMemory>
    ensures { IfOk result (λ n. n ≡ sizes.size_for_statement statement.now) }
{
    match statement {
        Statement::Literal { into, .. }
        | Statement::Object { into }
        | Statement::Function { into, .. }
        | Statement::Own { into }
        | Statement::Shared { into, .. }
        | Statement::Cell { into, .. } => size_for(*into),
        Statement::Copy { into, of } | Statement::Get { into, of, .. } => size_for_two(*into, *of),
        Statement::Op { into, of } => size_for_all(size_for(*into)?, of.as_slice()),
        Statement::GetAt { into, of, key } => size_for_three(*into, *of, *key),
        Statement::Set { of, value, .. } => size_for_two(*of, *value),
        Statement::SetAt { of, key, value } => size_for_three(*of, *key, *value),
        Statement::SetCell { value, .. }
        | Statement::Return { value }
        | Statement::Throw { value } => size_for(*value),
        Statement::Call {
            into,
            callee,
            receiver,
            arguments,
        } => size_for_call(*into, *callee, *receiver, arguments.as_slice()),
        Statement::Branch { .. } | Statement::Land | Statement::Load { .. } => Ok(0),
    }
}

fn size_for_draft(draft: &Draft) -> Result<u32, NoMemory>
    ensures { IfOk result (λ n. n ≡ sizes.size_for_draft draft.now) }
{
    match draft {
        Draft::Complete(statement) => size_for_statement(statement),
        Draft::Get { into, of, .. } => size_for_two(*into, *of),
        Draft::Set { of, value, .. } => size_for_two(*of, *value),
        Draft::Shared { into, .. } => size_for(*into),
        Draft::Branch { .. } => Ok(0),
    }
}

/// How many locals there must be for those that the lines name, and at least so many.
pub fn size_for_lines(least: u32, lines: &[DraftLine]) -> Result<u32, NoMemory>
    ensures { IfOk result (λ n. n ≡ sizes.size_for_lines least lines.now) }
{
    let mut most = least;
    for line in lines {
        most = most.max(size_for_draft(&line.draft)?);
    }
    Ok(most)
}
