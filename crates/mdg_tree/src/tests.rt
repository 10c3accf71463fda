//! Each call once.

ghost use Rattle.std.specs.Prelude.{◌≤◌, IfOk};
ghost use Rattle.mdg_tree.specs.Height as heights;

use crate::{At, Expr, FileTree, Stmt, copy, height};
use mdg_base::{Items, NoMemory, Text};
use sqlite_items::Boxed;
use std::alloc::Global;
use std::test::Fail;

/// `(a);`
#[tactic(auto, using(crate::proofs::Heights::heights), unfolding(crate::specs::Height::file_height))]
fn sample(alloc: Global) -> Result<FileTree, NoMemory>
    ensures { IfOk result (λ t. heights.file_height t ≤ 256) }
{
    let name = Text::of(alloc, "a")?;
    let inner = Boxed::new(alloc, Expr::Name(At { line: 1, offset: 1 }, name))?;
    let place = At { line: 1, offset: 0 };
    let mut items = Items::create(alloc);
    items.push(Stmt::Expression(place, Expr::Paren(place, inner)))?;
    Ok(FileTree { at: place, items })
}

#[test]
fn measures(rt: HostRuntime) -> Result<(), Fail> {
    let tree = sample(rt.alloc())?;
    assert_eq!(rt; height(&tree), 4);
    Ok(())
}

#[test]
fn copies(rt: HostRuntime) -> Result<(), Fail> {
    let tree = sample(rt.alloc())?;
    let again = copy(rt.alloc(), &tree)?;
    assert_eq!(rt; again.items.as_slice().len(), 1);
    let kept = matches!(
        &again.items.as_slice()[0],
        Stmt::Expression(At { offset: 0, .. }, Expr::Paren(..))
    );
    assert!(rt; kept);
    Ok(())
}
