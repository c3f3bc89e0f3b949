//! How a command ended.
ghost use Rattle.std.specs.Prelude.{◌≡◌};
ghost use Rattle.crl_cli.specs.Codes.{code_of};

/// How a command ended, and what it printed.
#[derive(Clone, Copy, Debug, PartialEq, Eq)]
pub enum Status {
    /// The account of the run, the final regions and the counts; or `legal`; or a script; or a summary.
    Ok,
    /// The words are no command: `usage: crl COMMAND`.
    Usage,
    /// The bytes aren't a script: `bad script LINE WHY`.
    BadScript,
    /// Some nodes wait for each other for ever: the account, a line for each of them, and the counts.
    Stuck,
    /// A pull failed: `read fault`.
    ReadFault,
    /// A push failed: a first part of the text.
    WriteFault,
    /// There was no memory: nothing.
    OutOfMemory,
    /// An entry of the account is no legal step: `illegal LINE`.
    Illegal,
    /// A line of the account fits no place: `bad account LINE`.
    BadAccount,
}

impl Status {
    /// The exit status of the program.
    pub fn code(self) -> u8
        ensures { result ≡ code_of self }
    {
        match self {
            Status::Ok => 0,
            Status::Usage => 1,
            Status::BadScript => 2,
            Status::Stuck => 3,
            Status::ReadFault => 4,
            Status::WriteFault => 5,
            Status::OutOfMemory => 6,
            Status::Illegal => 7,
            Status::BadAccount => 8,
        }
    }
}
