//! Where a package begins.
ghost use Rattle.std.specs.Prelude.{◌≡◌, Some};
ghost use Rattle.mdg_code.specs.Entry.{entry_module};
ghost use Rattle.mdg_code.specs.Validity.{IsValid};

use crate::Code;
use mdg_base::CellId;

/// The cell of the module object of the entry, which is file 0.
pub fn entry_module(code: &Code) -> CellId
    requires valid { IsValid code.now }
    ensures { entry_module code.now ≡ Some result }
{
    code.files.as_slice()[0].module
}
