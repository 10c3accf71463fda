//! The blocks of the things that a layout numbers.
ghost use Rattle.std.specs.Prelude.{◌≡◌, ◌<◌, ◌≤◌, length, slice_index};
ghost use Rattle.mdg_site.specs.Laid.{laid, locals_at, parameters_in};
ghost use Rattle.mdg_site.specs.Nodes.{node_size_at, object_size_at};
ghost use Rattle.mdg_site.specs.Rows.{known_size_at};
ghost use Rattle.mdg_site.specs.Shapes.{pair_size, shape_at};

use crate::blocks::Blocks;
use crate::shape::{Shape, one_if, shape_of};
use mdg_code::Code;

/// Which nodes and rows the statement at the site has. The site is in range.
pub fn shape_at(code: &Code, site: usize) -> Shape
    requires { site < length code.now.lines }
    ensures { result ≡ shape_at (laid code.now) site }
{
    shape_of(&code.lines.as_slice()[site].statement)
}

fn pair_size(first: bool, second: bool) -> u64
    ensures { result ≡ pair_size first second }
{
    u64::from(one_if(first)) + u64::from(one_if(second))
}

fn locals_at(code: &Code, site: usize) -> u64
    requires { site < length code.now.lines }
    ensures { result ≡ locals_at (laid code.now) site }
{
    let function = code.lines.as_slice()[site].function;
    match code.functions.as_slice().get(function.0 as usize) {
        Some(row) => u64::from(row.locals),
        None => 0,
    }
}

fn parameters_in(code: &Code, function: usize) -> u64
    requires { function < length code.now.functions }
    ensures { result ≡ parameters_in (laid code.now) function }
{
    code.functions.as_slice()[function]
        .parameters
        .as_slice()
        .len() as u64
}

/// The parameters of each function.
#[derive(Drop)]
pub struct Parameters<'a> {
    pub code: &'a Code,
}

impl Blocks for Parameters<'_> {
    ghost blocks = { λ x. length x.code.now.functions };

    ghost size_of = { λ x. parameters_in (laid x.code.now) };

    fn count(&self) -> usize {
        self.code.functions.as_slice().len()
    }

    fn size(&self, block: usize) -> u64 {
        parameters_in(self.code, block)
    }
}

/// The nodes of each site.
#[derive(Drop)]
pub struct Nodes<'a> {
    pub code: &'a Code,
}

impl Blocks for Nodes<'_> {
    ghost blocks = { λ x. length x.code.now.lines };

    ghost size_of = { λ x. node_size_at (laid x.code.now) };

    fn count(&self) -> usize {
        self.code.lines.as_slice().len()
    }

    fn size(&self, block: usize) -> u64 {
        let shape = shape_at(self.code, block);
        pair_size(shape.own, shape.outside)
    }
}

/// The nodes of each site that stand for objects.
#[derive(Drop)]
pub struct Objects<'a> {
    pub code: &'a Code,
}

impl Blocks for Objects<'_> {
    ghost blocks = { λ x. length x.code.now.lines };

    ghost size_of = { λ x. object_size_at (laid x.code.now) };

    fn count(&self) -> usize {
        self.code.lines.as_slice().len()
    }

    fn size(&self, block: usize) -> u64 {
        let shape = shape_at(self.code, block);
        pair_size(shape.fields, shape.outside)
    }
}

/// The locals at each site.
#[derive(Drop)]
pub struct Locals<'a> {
    pub code: &'a Code,
}

impl Blocks for Locals<'_> {
    ghost blocks = { λ x. length x.code.now.lines };

    ghost size_of = { λ x. locals_at (laid x.code.now) };

    fn count(&self) -> usize {
        self.code.lines.as_slice().len()
    }

    fn size(&self, block: usize) -> u64 {
        locals_at(self.code, block)
    }
}

/// The rows of each site for what goes into it.
#[derive(Drop)]
pub struct Known<'a> {
    pub code: &'a Code,
}

impl Blocks for Known<'_> {
    ghost blocks = { λ x. length x.code.now.lines };

    ghost size_of = { λ x. known_size_at (laid x.code.now) };

    fn count(&self) -> usize {
        self.code.lines.as_slice().len()
    }

    fn size(&self, block: usize) -> u64 {
        u64::from(one_if(shape_at(self.code, block).known))
    }
}

/// Blocks whose sizes are listed.
#[derive(Drop)]
pub struct Listed<'a> {
    pub sizes: &'a [u64],
}

impl Blocks for Listed<'_> {
    ghost blocks = { λ x. length x.sizes.now };

    ghost size_of = { λ x i. slice_index x.sizes.now i };

    fn count(&self) -> usize {
        self.sizes.len()
    }

    fn size(&self, block: usize) -> u64 {
        self.sizes[block]
    }
}
