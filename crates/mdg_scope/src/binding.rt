//! The bindings of a file.

ghost use Rattle.std.specs.Prelude.{◌≡◌, Ok, Err, IfOk, MatchOption};
ghost use Rattle.mdg_scope.specs.Bindings.{Checks, HasParts, IsAnswer, IsAnswerOver};
ghost use Rattle.mdg_scope.specs.Resolution as resolutions;
ghost use Rattle.mdg_scope.specs.Violations as violations;

use crate::bound::{Bound, BoundFunction, Require};
use crate::collector::file_occurrences;
use crate::function::{functions_with, uses_of};
use crate::occurrence::Occurrence;
use crate::refusal::ScopeRefusal;
use crate::required::required_by;
use crate::resolution::{Scopes, scopes_of};
use crate::violation::{Violation, first_violation, refusal_of};
use mdg_base::{Items, NoMemory, Text};
use mdg_profile::Profile;
use mdg_tree::{At, FileTree};
use std::alloc::Global;

/// What the occurrences of a file bind and require.
#[derive(Drop)]
struct Parts {
    functions: Items<BoundFunction>,
    required: Items<Require>,
}

/// The refusal of the violation, if there is one.
fn refused(violation: Option<Violation>) -> Result<(), ScopeRefusal>
    ensures { MatchOption violation (result ≡ Ok tt) (λ b. result ≡ Err (violations.refusal_of b)) }
{
    match violation {
        Some(violation) => Err(refusal_of(violation)),
        None => Ok(()),
    }
}

/// Whether the occurrences violate a rule.
#[tactic(auto, using(crate::proofs::RefusalLemmas::checked))]
fn check<'a>(
    alloc: Global,
    path: &str,
    occurrences: &'a [Occurrence],
    scopes: &Scopes<'a>,
) -> Result<(), ScopeRefusal>
    ensures { Checks path.now scopes.now occurrences.now result }
{
    let violation = first_violation(alloc, path, occurrences, scopes)?;
    refused(violation)
}

fn parts_of<'a>(
    alloc: Global,
    path: &str,
    at: At,
    occurrences: &'a [Occurrence],
    scopes: &Scopes<'a>,
) -> Result<Parts, NoMemory>
    ensures { IfOk result (HasParts path.now scopes.now at occurrences.now) }
{
    let uses = uses_of(alloc, occurrences, scopes)?;
    Ok(Parts {
        functions: functions_with(alloc, scopes, &uses, at, occurrences)?,
        required: required_by(alloc, path, scopes, occurrences)?,
    })
}

/// What the occurrences bind and require, or the refusal of the first violation.
fn checked_parts(
    alloc: Global,
    path: &str,
    at: At,
    occurrences: &[Occurrence],
    profile: &Profile,
) -> Result<Parts, ScopeRefusal>
    ensures { IsAnswerOver path.now (resolutions.scopes occurrences.now profile.now) at occurrences.now result }
{
    let scopes = scopes_of(alloc, occurrences, profile)?;
    check(alloc, path, occurrences, &scopes)?;
    Ok(parts_of(alloc, path, at, occurrences, &scopes)?)
}

/// What the functions of a file bind, and what it requires, under a profile (10.5, 13, 14.1).
///
/// A name means the enclosing_binder binding around it, else `require`, else a literal name (`undefined`, `NaN`,
/// `Infinity`), else a global of the profile. The refusal is that of the least offset, and at one offset the
/// first in the order `BadBinding`, `Unbound`, `BadRequire`, `BadNew`, `BadJump`; `ScopeRefusal` says when
/// each comes. The path is that of the file from the package's folder. A refused call drops the tree.
pub fn bind(
    alloc: Global,
    path: &str,
    tree: FileTree,
    profile: &Profile,
) -> Result<Bound, ScopeRefusal>
    ensures { IsAnswer path.now tree profile.now result }
{
    let occurrences = file_occurrences(alloc, &tree)?;
    let Parts {
        functions,
        required,
    } = checked_parts(alloc, path, tree.at, occurrences.as_slice(), profile)?;
    Ok(Bound {
        path: Text::of(alloc, path)?,
        tree,
        functions,
        required,
    })
}
