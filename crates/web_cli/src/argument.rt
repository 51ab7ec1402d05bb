//! The arguments of a line whose values are read.

use std::fmt;

/// An argument of a line whose value is read.
#[derive(Clone, Copy, PartialEq, Eq)]
pub enum Argument {
    /// `--from` of `feed`.
    From,
    /// `--step` of `feed`.
    Step,
    /// `--organizer` of `init`.
    Organizer,
    /// `--event` of `init`.
    Event,
    /// The token of `token-add`.
    Token,
    /// `--listen` of `serve`.
    Listen,
    /// `--connections` of `serve`.
    Connections,
    /// `--list` of `report`.
    List,
}

impl Argument {
    /// What its value may be, in words.
    pub fn range(self) -> &'static str {
        match self {
            Argument::From => "a moment, as 2026-05-01T10:00:00Z",
            Argument::Step => "0 to 31536000 seconds, in digits",
            Argument::Organizer | Argument::Event => "1 to 50 ASCII letters, digits, -, . and _",
            Argument::Token => "1 to 254 ASCII letters, digits and signs, without a blank",
            Argument::Listen => "an IP address and a port, as 127.0.0.1:8080 or [::1]:8080",
            Argument::Connections => "0 to 1000000, in digits",
            Argument::List => "1 to 18 digits",
        }
    }
}

/// Its name, as a line has it.
impl fmt::Display for Argument {
    fn fmt<W: fmt::Write>(&self, f: &mut fmt::Formatter<W>) -> fmt::Result {
        let name = match self {
            Argument::From => "--from",
            Argument::Step => "--step",
            Argument::Organizer => "--organizer",
            Argument::Event => "--event",
            Argument::Token => "TOKEN",
            Argument::Listen => "--listen",
            Argument::Connections => "--connections",
            Argument::List => "--list",
        };
        write!(f, "{name}")
    }
}
