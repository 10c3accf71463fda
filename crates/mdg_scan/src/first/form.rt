use mdg_base::{Items, NoMemory, Text};
use thiserror::Error;

/// A file of the first form: its functions in their order, and what it exports.
#[derive(Debug, Drop)]
pub struct Form {
    pub functions: Items<FormFunction>,
    pub exported: Option<Export>,
}

/// A declared function. Its body hands its parameter to `eval`.
#[derive(Debug, Drop)]
pub struct FormFunction {
    pub name: Text,
    pub parameter: Text,

    /// What is added to the parameter first, if anything is.
    pub text: Option<Text>,

    /// The line that declares it, counted from 1.
    pub line: u32,
}

/// The line that exports a function.
#[derive(Clone, Copy, Debug, PartialEq, Eq)]
pub struct Export {
    /// The place of the function among the declared ones, counted from 0.
    pub function: u32,

    /// Counted from 1.
    pub line: u32,
}

/// Why a file is not read.
#[derive(Clone, Copy, Debug, PartialEq, Eq, Error)]
pub enum FormRefusal {
    /// The first line is not the directive `'use strict';`.
    #[error("the file does not begin with 'use strict';")]
    NotStrict,

    /// The first line that is out of form, counted from 1.
    #[error("line {0} is out of form")]
    NoTree(u64),

    #[error("out of memory")]
    NoMemory,
}

impl From<NoMemory> for FormRefusal {
    ghost use Rattle.std.specs.Prelude.{◌≡◌};
    ghost use Rattle.mdg_scan.specs.declared.first.form.FormRefusal.TheVariants as refusal;

    ghost from_gives = { λ _ e. e ≡ refusal.NoMemory };

    fn from(_: NoMemory) -> Self {
        FormRefusal::NoMemory
    }
}
