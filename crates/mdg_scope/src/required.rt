//! The calls of `require`.

ghost use Rattle.std.specs.Prelude.{◌≡◌, ◌++◌, OnOk, IfOk, if◌then◌else◌, []};
ghost use Rattle.mdg_scope.specs.Functions as functions_of;
ghost use Rattle.mdg_scope.specs.RequireTargets as targets;

use crate::bound::{Goal, Require};
use crate::occurrence::{Callee, Occurrence, OccurrenceKind};
use crate::require_target::{RequireTarget, target_of};
use crate::resolution::{Resolution, Scopes};
use mdg_base::{Items, NoMemory, Text};
use std::alloc::Global;

fn put_require(
    made: &mut Items<Require>,
    alloc: Global,
    path: &str,
    offset: u32,
    callee: &Callee,
) -> Result<(), NoMemory>
    ensures { OnOk result (made.new ≡ made.old ++ functions_of.require_of offset callee.now.line callee.now.text (targets.target_of path.now callee.now.text)) }
{
    let line = callee.line;
    match target_of(alloc, path, callee.text.as_str())? {
        RequireTarget::Refused => Ok(()),
        RequireTarget::Bare(text) => made.push(Require {
            offset,
            line,
            text,
            goal: Goal::Bare,
        }),
        RequireTarget::InPackage => made.push(Require {
            offset,
            line,
            text: callee.text.copy(alloc)?,
            goal: Goal::Path,
        }),
    }
}

fn put_called(
    made: &mut Items<Require>,
    alloc: Global,
    path: &str,
    occurrence: &Occurrence,
    means: Resolution,
) -> Result<(), NoMemory>
    ensures { OnOk result (made.new ≡ made.old ++ functions_of.called_require path.now occurrence.now.offset occurrence.now.kind means) }
{
    if let OccurrenceKind::Called(callee) = &occurrence.kind {
        if matches!(means, Resolution::Require) {
            return put_require(made, alloc, path, occurrence.offset, callee);
        }
    }
    Ok(())
}

/// The calls of `require` that nothing binds, in order.
#[tactic(auto, using(crate::proofs::Walks::walks))]
pub fn required_by<'a>(
    alloc: Global,
    path: &str,
    scopes: &Scopes<'a>,
    occurrences: &'a [Occurrence],
) -> Result<Items<Require>, NoMemory>
    ensures { IfOk result (λ r. r ≡ functions_of.required path.now scopes.now occurrences.now) }
{
    let mut made = Items::create(alloc);
    for occurrence in occurrences {
        let means = scopes.resolve(occurrence.within, occurrence.name.as_str());
        put_called(&mut made, alloc, path, occurrence, means)?;
    }
    Ok(made)
}
