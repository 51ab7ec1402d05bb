//! How a command line ends.

ghost use Rattle.std.specs.Prelude.{◌≡◌};
ghost use Rattle.web_cli.specs.Line.{exit_status};

use crate::fault::RunFault;

/// How a command line ends.
#[derive(Clone, Copy, PartialEq, Eq)]
pub enum LineEnd {
    /// All was done.
    Well,
    /// With a fault, which is told on standard error.
    Failed(RunFault),
    /// Help was asked for.
    Helped,
    /// The line is wrong.
    Wrong,
}

impl LineEnd {
    /// The exit status of the program: 0, 1 for a fault, 2 for a wrong line.
    pub fn status(self) -> u8
        ensures { result ≡ exit_status self }
    {
        match self {
            LineEnd::Well | LineEnd::Helped => 0,
            LineEnd::Failed(_) => 1,
            LineEnd::Wrong => 2,
        }
    }
}
