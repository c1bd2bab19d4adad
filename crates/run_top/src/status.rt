//! How a run ended.

ghost use Rattle.std.specs.Prelude.{◌≡◌};
ghost use Rattle.run_top.specs.Statuses.{status_number};

/// The exit status of a run.
#[derive(Clone, Copy, Debug, PartialEq, Eq)]
pub enum Status {
    /// The core text was written.
    Done = 0,
    /// The program has a fault, whose line was written.
    Fault = 1,
    /// The words ask for nothing that there is.
    Usage = 2,
    /// A file couldn't be read.
    ReadFault = 3,
    /// A text couldn't be written whole.
    WriteFault = 4,
    /// No memory was left.
    Memory = 5,
}

impl Status {
    /// The exit status of the process.
    pub fn number(self) -> u8
        ensures { result ≡ status_number self }
    {
        self as u8
    }
}
