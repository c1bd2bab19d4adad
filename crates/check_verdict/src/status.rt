//! How a check ended.

ghost use Rattle.std.specs.Prelude.{◌≡◌};
ghost use Rattle.check_verdict.specs.Statuses.{status_number};

/// The exit status of a check.
#[derive(Clone, Copy, Debug, PartialEq, Eq)]
pub enum CheckStatus {
    /// The file is a core text.
    Yes = 0,
    /// It is none.
    No = 1,
    /// The words are no FILE.
    Usage = 2,
    /// The file couldn't be read.
    ReadFault = 3,
    /// The line couldn't be written whole.
    WriteFault = 4,
    /// No memory was left.
    Memory = 5,
}

impl CheckStatus {
    /// The exit status of the process.
    pub fn number(self) -> u8
        ensures { result ≡ status_number self }
    {
        self as u8
    }
}
