//! Where the program prints what a person reads.

use std::io::{Eprint, IsTerminal, Print};

/// The outputs of a program, and whether a person reads its errors.
pub trait Console: Print + Eprint {
    /// Whether standard error is a terminal.
    fn has_reader(&self) -> bool;
}

impl Console for HostRuntime {
    fn has_reader(&self) -> bool {
        self.stderr().is_terminal()
    }
}
