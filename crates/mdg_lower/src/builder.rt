//! The builder of lines: a branch is reserved, and patched once its targets are known.

ghost use Rattle.std.specs.Prelude.{◌≡◌, ◌++◌, ◌+◌, length, slice_set, map, take, drop, IfOk, OnOk, ◌≤◌};
ghost use Rattle.mdg_lower.specs.Labels as labels;
ghost use Rattle.mdg_lower.specs.Builder.{Emits, line_of};
ghost use Rattle.mdg_lower.specs.Builder as builder;

use crate::draft::{Draft, DraftLine, Label};
use crate::lookup::increment;
use crate::scope::Scope;
use mdg_base::{NoMemory, Place, Site};
use mdg_tree::At;

fn line_of<'a>(scope: &Scope<'a>, at: At, draft: Draft) -> DraftLine
    ensures { result ≡ line_of scope.now at draft }
{
    DraftLine {
        draft,
        place: Place {
            file: scope.file,
            line: at.line,
            offset: at.offset,
        },
        function: scope.function,
    }
}

/// Appends a line.
#[tactic(auto, unfolding(crate::specs::Builder::Emits, crate::specs::Builder::one))]
pub fn push<'a>(
    lines: &mut Vec<DraftLine>,
    scope: &Scope<'a>,
    at: At,
    draft: Draft,
) -> Result<(), NoMemory>
    ensures { OnOk result (Emits (builder.one scope.now at draft) lines.old.items lines.new.items) }
{
    lines.push(line_of(scope, at, draft))?;
    Ok(())
}

/// The site of the next line.
pub fn here(lines: &Vec<DraftLine>) -> Result<u32, NoMemory>
    ensures { IfOk result (λ s. s ≡ length lines.now.items) }
{
    match u32::try_from(lines.len()) {
        Ok(site) => Ok(site),
        Err(_) => Err(NoMemory),
    }
}

/// Appends a branch that is patched later.
pub fn reserve_branch<'a>(
    lines: &mut Vec<DraftLine>,
    scope: &Scope<'a>,
    at: At,
) -> Result<(), NoMemory>
    ensures { OnOk result (Emits (builder.one scope.now at (labels.branch 0 0)) lines.old.items lines.new.items) }
{
    let label = Label::Site(Site(0));
    push(
        lines,
        scope,
        at,
        Draft::Branch {
            left: label,
            right: label,
        },
    )
}

/// Writes a branch in place of the line at a site.
pub fn patch_branch<'a>(
    lines: &mut Vec<DraftLine>,
    scope: &Scope<'a>,
    at: At,
    from: u32,
    left: u32,
    right: u32,
) -> Result<(), NoMemory>
    ensures { OnOk result (lines.new.items ≡ slice_set lines.old.items from
        (line_of scope.now at (labels.branch left right))) }
{
    let index = from as usize;
    if index >= lines.len() {
        return Err(NoMemory);
    }
    lines[index] = line_of(
        scope,
        at,
        Draft::Branch {
            left: Label::Site(Site(left)),
            right: Label::Site(Site(right)),
        },
    );
    Ok(())
}

/// Patches a reserved branch: to the line after it, or past those that came since.
pub fn patch_over<'a>(
    lines: &mut Vec<DraftLine>,
    scope: &Scope<'a>,
    at: At,
    from: u32,
) -> Result<(), NoMemory>
    ensures { OnOk result (lines.new.items ≡ slice_set lines.old.items from
        (line_of scope.now at (labels.branch (from + 1) (length lines.old.items)))) }
{
    let end = here(lines)?;
    patch_branch(lines, scope, at, from, increment(from)?, end)
}

#[tactic(auto, unfolding(crate::specs::Labels::resolved_label))]
fn resolved_label(next: u32, end: u32, label: Label) -> Label
    ensures { result ≡ labels.resolved_label next end label }
{
    match label {
        Label::Site(site) => Label::Site(site),
        Label::Break => Label::Site(Site(end)),
        Label::Continue => Label::Site(Site(next)),
    }
}

#[tactic(auto, unfolding(crate::specs::Labels::resolved, crate::specs::Labels::resolved_draft))]
fn resolve_line(line: &mut DraftLine, next: u32, end: u32)
    ensures { line.new ≡ labels.resolved next end line.old }
{
    if let Draft::Branch { left, right } = line.draft {
        line.draft = Draft::Branch {
            left: resolved_label(next, end, left),
            right: resolved_label(next, end, right),
        };
    }
}

#[tactic(auto, using(crate::proofs::LabelLemmas::one_resolved))]
fn resolve_lines(part: &mut [DraftLine], next: u32, end: u32)
    ensures { part.new ≡ map (labels.resolved next end) part.old }
{
    for line in part.iter_mut() {
        resolve_line(line, next, end);
    }
}

/// Resolves the labels of a loop's body, which begins at a site and ends with the last line.
pub fn resolve_labels(
    lines: &mut Vec<DraftLine>,
    from: u32,
    next: u32,
    end: u32,
) -> Result<(), NoMemory>
    ensures { OnOk result (lines.new.items ≡ take from lines.old.items ++ map (labels.resolved next end)
        (drop from lines.old.items)) }
{
    let first = from as usize;
    if first > lines.len() {
        return Err(NoMemory);
    }
    resolve_lines(&mut lines[first..], next, end);
    Ok(())
}

/// Appends a branch both of whose targets are this one.
pub fn jump<'a>(
    lines: &mut Vec<DraftLine>,
    scope: &Scope<'a>,
    at: At,
    label: Label,
) -> Result<(), NoMemory>
    ensures { OnOk result (Emits (builder.one scope.now at (labels.jump label)) lines.old.items lines.new.items) }
{
    push(
        lines,
        scope,
        at,
        Draft::Branch {
            left: label,
            right: label,
        },
    )
}

/// Finishes a loop whose test begins at the start and whose branch is reserved: the labels of its body are
/// resolved, a jump back is appended, and the branch is patched.
#[tactic(auto, unfolding(crate::specs::Labels::FinishesWhile, crate::specs::Builder::Emits, crate::specs::Builder::one))]
pub fn finish_while<'a>(
    lines: &mut Vec<DraftLine>,
    scope: &Scope<'a>,
    at: At,
    start: u32,
    from: u32,
    next: u32,
) -> Result<(), NoMemory>
    ensures { OnOk result (labels.FinishesWhile scope.now at start from next lines.old.items lines.new.items) }
{
    let first = increment(from)?;
    let end = increment(here(lines)?)?;
    resolve_labels(lines, first, next, end)?;
    jump(lines, scope, at, Label::Site(Site(start)))?;
    patch_branch(lines, scope, at, from, first, end)
}

/// Finishes a `do`: the labels of its body are resolved, and a branch to its start or past it is appended.
#[tactic(auto, unfolding(crate::specs::Labels::FinishesDo, crate::specs::Builder::Emits, crate::specs::Builder::one))]
pub fn finish_do<'a>(
    lines: &mut Vec<DraftLine>,
    scope: &Scope<'a>,
    at: At,
    start: u32,
    next: u32,
) -> Result<(), NoMemory>
    ensures { OnOk result (labels.FinishesDo scope.now at start next lines.old.items lines.new.items) }
{
    let end = increment(here(lines)?)?;
    resolve_labels(lines, start, next, end)?;
    push(
        lines,
        scope,
        at,
        Draft::Branch {
            left: Label::Site(Site(start)),
            right: Label::Site(Site(end)),
        },
    )
}
