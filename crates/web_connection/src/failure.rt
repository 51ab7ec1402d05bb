//! Why a connection ends before its bytes do, and how far a step came.

ghost use Rattle.std.specs.Prelude.{◌≡◌};
ghost use Rattle.web_connection.specs.Failures.{failure_number};

/// Why a connection ends before its bytes do.
#[derive(Clone, Copy, Drop, PartialEq, Eq)]
pub enum Failure {
    /// The reader failed.
    Input,
    /// The writer failed.
    Output,
    /// The clock or the draws failed.
    Clock,
    /// The reader was called 1,000,000 times, and did not come to its end.
    Limit,
    /// There was no memory to open the connection, or the room for what was read could not grow.
    Memory,
}

impl Failure {
    /// Its number: 6 for want of memory, 82 for what was read, 83 for what was written, 85 for the ticks.
    pub fn number(self) -> u8
        ensures { result ≡ failure_number self }
    {
        match self {
            Failure::Memory => 6,
            Failure::Input | Failure::Limit => 82,
            Failure::Output => 83,
            Failure::Clock => 85,
        }
    }
}

/// How far a step came.
#[derive(Clone, Copy, Drop, PartialEq, Eq)]
pub enum Step {
    /// No message is whole yet.
    Waits,
    /// A message was answered, and another one may follow.
    Goes,
    /// The connection ends.
    Ends,
}
