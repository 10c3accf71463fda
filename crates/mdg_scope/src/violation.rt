//! Violations of the rules of bindings, `require`, `new` and jumps, and the first one of a file.

ghost use Rattle.std.specs.Prelude.{◌≡◌, IfOk};
ghost use Rattle.mdg_scope.specs.Resolution as resolutions;
ghost use Rattle.mdg_scope.specs.RequireTargets as targets;
ghost use Rattle.mdg_scope.specs.Violations as violations;

use crate::occurrence::{Occurrence, OccurrenceKind};
use crate::refusal::ScopeRefusal;
use crate::require_target::{RequireTarget, target_of};
use crate::resolution::{Resolution, Scopes};
use mdg_base::{NoMemory, Text};
use std::alloc::Global;

/// The rule that is violated. At one offset the earlier one of these is refused.
#[derive(Clone, Copy, Debug, PartialEq, Eq)]
pub enum ViolationKind {
    /// What may be bound, assigned and deleted, and keys.
    Binding,

    /// A name means something.
    Meaning,

    /// Calls of `require`.
    Requiring,

    /// Operands of `new`.
    Constructing,

    /// `break` and `continue`.
    Jumping,
}

/// A rule that is violated at an offset, and the name that violates it.
#[derive(Debug, Drop)]
pub struct Violation {
    pub offset: u32,
    pub kind: ViolationKind,
    pub name: Text,
}

fn violates_binding(occurrence: &Occurrence, means: Resolution) -> bool
    ensures { result ≡ violations.violates_binding occurrence.now.kind occurrence.now.name means }
{
    match &occurrence.kind {
        OccurrenceKind::RepeatedParameter | OccurrenceKind::Deleted | OccurrenceKind::RepeatedKey =>
            true,
        OccurrenceKind::Parameter
        | OccurrenceKind::Variable
        | OccurrenceKind::Declared
        | OccurrenceKind::Own => occurrence.name.as_str() == "eval",
        OccurrenceKind::Assigned => occurrence.name.as_str() == "eval"
            || matches!(means, Resolution::Literal | Resolution::Global),
        OccurrenceKind::Given
        | OccurrenceKind::Read
        | OccurrenceKind::TypeOperand
        | OccurrenceKind::Called(_)
        | OccurrenceKind::Constructed
        | OccurrenceKind::OtherConstructed
        | OccurrenceKind::LooseJump
        | OccurrenceKind::Begins(_) => false,
    }
}

fn violates_meaning(kind: &OccurrenceKind, means: Resolution) -> bool
    ensures { result ≡ violations.violates_meaning kind.now means }
{
    matches!(
        kind,
        OccurrenceKind::Read | OccurrenceKind::Assigned | OccurrenceKind::Called(_)
    ) && matches!(means, Resolution::Nothing)
}

fn violates_require(
    alloc: Global,
    path: &str,
    kind: &OccurrenceKind,
    means: Resolution,
) -> Result<bool, NoMemory>
    ensures { IfOk result (λ b. b ≡ violations.violates_require path.now kind.now means) }
{
    if !matches!(means, Resolution::Require) {
        return Ok(false);
    }
    match kind {
        OccurrenceKind::Read | OccurrenceKind::Assigned | OccurrenceKind::TypeOperand => Ok(true),
        OccurrenceKind::Called(callee) => is_refused(alloc, path, callee.text.as_str()),
        OccurrenceKind::Given
        | OccurrenceKind::Parameter
        | OccurrenceKind::RepeatedParameter
        | OccurrenceKind::Variable
        | OccurrenceKind::Declared
        | OccurrenceKind::Own
        | OccurrenceKind::Deleted
        | OccurrenceKind::RepeatedKey
        | OccurrenceKind::Constructed
        | OccurrenceKind::OtherConstructed
        | OccurrenceKind::LooseJump
        | OccurrenceKind::Begins(_) => Ok(false),
    }
}

fn is_refused(alloc: Global, path: &str, text: &str) -> Result<bool, NoMemory>
    ensures { IfOk result (λ b. b ≡ violations.is_refused (targets.target_of path.now text.now)) }
{
    match target_of(alloc, path, text)? {
        RequireTarget::Refused => Ok(true),
        RequireTarget::Bare(_) | RequireTarget::InPackage => Ok(false),
    }
}

fn violates_new(kind: &OccurrenceKind, means: Resolution) -> bool
    ensures { result ≡ violations.violates_new kind.now means }
{
    match kind {
        OccurrenceKind::Constructed => !matches!(means, Resolution::Global),
        OccurrenceKind::OtherConstructed => true,
        OccurrenceKind::Given
        | OccurrenceKind::Parameter
        | OccurrenceKind::RepeatedParameter
        | OccurrenceKind::Variable
        | OccurrenceKind::Declared
        | OccurrenceKind::Own
        | OccurrenceKind::Read
        | OccurrenceKind::Assigned
        | OccurrenceKind::TypeOperand
        | OccurrenceKind::Called(_)
        | OccurrenceKind::Deleted
        | OccurrenceKind::RepeatedKey
        | OccurrenceKind::LooseJump
        | OccurrenceKind::Begins(_) => false,
    }
}

fn violates_jump(kind: &OccurrenceKind) -> bool
    ensures { result ≡ violations.violates_jump kind.now }
{
    matches!(kind, OccurrenceKind::LooseJump)
}

/// The first rule that the occurrence violates.
fn first_kind(
    alloc: Global,
    path: &str,
    occurrence: &Occurrence,
    means: Resolution,
) -> Result<Option<ViolationKind>, NoMemory>
    ensures { IfOk result (λ o. o ≡ violations.first_kind path.now occurrence.now means) }
{
    if violates_binding(occurrence, means) {
        return Ok(Some(ViolationKind::Binding));
    }
    if violates_meaning(&occurrence.kind, means) {
        return Ok(Some(ViolationKind::Meaning));
    }
    if violates_require(alloc, path, &occurrence.kind, means)? {
        return Ok(Some(ViolationKind::Requiring));
    }
    if violates_new(&occurrence.kind, means) {
        return Ok(Some(ViolationKind::Constructing));
    }
    if violates_jump(&occurrence.kind) {
        return Ok(Some(ViolationKind::Jumping));
    }
    Ok(None)
}

fn rank(kind: ViolationKind) -> u32
    ensures { result ≡ violations.rank kind }
{
    match kind {
        ViolationKind::Binding => 0,
        ViolationKind::Meaning => 1,
        ViolationKind::Requiring => 2,
        ViolationKind::Constructing => 3,
        ViolationKind::Jumping => 4,
    }
}

fn violation_by(
    alloc: Global,
    path: &str,
    occurrence: &Occurrence,
    means: Resolution,
) -> Result<Option<Violation>, NoMemory>
    ensures { IfOk result (λ o. o ≡ violations.found_by occurrence.now (violations.first_kind path.now occurrence.now means)) }
{
    match first_kind(alloc, path, occurrence, means)? {
        Some(kind) => Ok(Some(Violation {
            offset: occurrence.offset,
            kind,
            name: occurrence.name.copy(alloc)?,
        })),
        None => Ok(None),
    }
}

fn is_sooner(one: &Violation, other: &Violation) -> bool
    ensures { result ≡ violations.is_sooner one.now other.now }
{
    one.offset < other.offset || one.offset == other.offset && rank(one.kind) < rank(other.kind)
}

/// The sooner of two violations, the first of them where neither is.
fn sooner_of(best: Option<Violation>, one: Option<Violation>) -> Option<Violation>
    ensures { result ≡ violations.sooner_of best one }
{
    let Some(found) = one else {
        return best;
    };
    let Some(before) = best else {
        return Some(found);
    };
    if is_sooner(&found, &before) {
        Some(found)
    } else {
        Some(before)
    }
}

/// The first violation: the one of least offset, and at one offset by the order of the rules.
#[tactic(auto, using(crate::proofs::ViolationLemmas::one_more))]
pub fn first_violation<'a>(
    alloc: Global,
    path: &str,
    occurrences: &'a [Occurrence],
    scopes: &Scopes<'a>,
) -> Result<Option<Violation>, NoMemory>
    ensures { IfOk result (violations.FirstOf path.now scopes.now occurrences.now) }
{
    let mut best: Option<Violation> = None;
    for occurrence in occurrences {
        let means = scopes.resolve(occurrence.within, occurrence.name.as_str());
        let one = violation_by(alloc, path, occurrence, means)?;
        best = sooner_of(best, one);
    }
    Ok(best)
}

/// The refusal of a violation.
pub fn refusal_of(violation: Violation) -> ScopeRefusal
    ensures { result ≡ violations.refusal_of violation }
{
    let Violation { offset, kind, name } = violation;
    match kind {
        ViolationKind::Binding => ScopeRefusal::BadBinding(name, offset),
        ViolationKind::Meaning => ScopeRefusal::Unbound(name, offset),
        ViolationKind::Requiring => ScopeRefusal::BadRequire(offset),
        ViolationKind::Constructing => ScopeRefusal::BadNew(offset),
        ViolationKind::Jumping => ScopeRefusal::BadJump(offset),
    }
}
