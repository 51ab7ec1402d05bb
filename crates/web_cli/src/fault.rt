//! Why the program ends with status 1.

ghost use Rattle.std.specs.Prelude.{◌≡◌};
ghost use Rattle.web_cli.specs.Faults.{as_fault, fault_number};

use crate::argument::Argument;
use model_damage::Rule;
use std::alloc::AllocError;
use std::fmt;
use web_connection::Failure;

/// Why the program ends with status 1.
#[derive(Clone, Copy, PartialEq, Eq)]
pub enum RunFault {
    /// There is no memory to read the command line, or for a shop.
    Memory,
    /// The shop has all the tokens that it may have.
    Full,
    /// The shop has no check-in list of this number.
    NoList,
    /// The file isn't a shop's; or it stands already, where a shop is to be made.
    NotAShop,
    /// The file's tables are of another version.
    Version,
    /// The file's rows break this rule.
    Damaged(Rule),
    /// The store failed, or refused the file.
    Store,
    /// The first line of a voucher file doesn't name its columns.
    Header,
    /// This line of a voucher file, from 1 below the first, has not as many columns, or isn't UTF-8.
    Line(u64),
    /// Of this line of a voucher file this column, from 1, can't be read, or is out of its range.
    Column(u64, u64),
    /// What an export is written to refuses.
    Unwritten,
    /// A voucher file has more lines than 100,000.
    TooManyLines,
    /// The shop's file can't be opened, or can't be made.
    File,
    /// The shop's file has a second name, a hard link.
    Linked,
    /// The voucher file can't be read.
    CsvFile,
    /// The address can't be listened at, or takes no callers any more.
    Listen,
    /// The value of this argument can't be read, or is out of its range.
    Argument(Argument),
    /// The run failed.
    Run(Failure),
}

impl RunFault {
    /// Its number: 6 for want of memory, 16 where there are too many tokens, 50 for an unknown list, 60 to 63 for what a file holds, 70 to 74
    /// for what a voucher file says and an export that can't be written, 80 for a file that can't be opened, 81 for an address, 84 for an argument, and that of the failure.
    pub fn number(self) -> u8
        ensures { result ≡ fault_number self }
    {
        match self {
            RunFault::Memory => 6,
            RunFault::Full => 16,
            RunFault::NoList => 50,
            RunFault::NotAShop => 60,
            RunFault::Version => 61,
            RunFault::Damaged(_) => 62,
            RunFault::Store => 63,
            RunFault::Header => 70,
            RunFault::Line(_) => 71,
            RunFault::Column(_, _) => 72,
            RunFault::Unwritten => 73,
            RunFault::TooManyLines => 74,
            RunFault::File | RunFault::Linked | RunFault::CsvFile => 80,
            RunFault::Listen => 81,
            RunFault::Argument(_) => 84,
            RunFault::Run(failure) => failure.number(),
        }
    }
}

impl From<AllocError> for RunFault {
    fn from(_error: AllocError) -> RunFault {
        RunFault::Memory
    }
}

/// Its number; of damage with the rule that is broken behind it, as `62.4`.
impl fmt::Display for RunFault {
    fn fmt<W: fmt::Write>(&self, f: &mut fmt::Formatter<W>) -> fmt::Result {
        let number = self.number();
        match self {
            RunFault::Damaged(rule) => {
                let rule = rule.number();
                write!(f, "{number}.{rule}")
            }
            _ => write!(f, "{number}"),
        }
    }
}

/// The end of a run, as the program's.
pub fn ended(run: Result<(), Failure>) -> Result<(), RunFault>
    ensures { result ≡ as_fault run }
{
    match run {
        Ok(()) => Ok(()),
        Err(failure) => Err(RunFault::Run(failure)),
    }
}
