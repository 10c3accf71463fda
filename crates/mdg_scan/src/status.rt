ghost use Rattle.std.specs.Prelude.{◌≡◌};
ghost use Rattle.mdg_scan.specs.Exits.{number_of};

/// How a command ended.
#[derive(Clone, Copy, Debug, PartialEq, Eq)]
pub enum Status {
    /// Nothing was found.
    Clean,

    /// Something was found.
    Findings,

    /// The package is not one that can be analysed. The text says why.
    Refused,

    /// The words are out of form. The text says how the program is used.
    Usage,

    /// A read of the folder failed. The text has the path.
    ReadFault,

    /// A write of the text failed.
    WriteFault,

    /// Memory was refused, and nothing was written.
    NoMemory,
}

impl Status {
    /// The exit status of the program: 0 to 6, in the order above.
    pub fn number(self) -> u8
        ensures { result ≡ number_of self }
    {
        match self {
            Status::Clean => 0,
            Status::Findings => 1,
            Status::Refused => 2,
            Status::Usage => 3,
            Status::ReadFault => 4,
            Status::WriteFault => 5,
            Status::NoMemory => 6,
        }
    }
}
