//! What a person reads of a fault.

use crate::fault::RunFault;
use std::fmt;
use web_connection::Failure;

/// A fault as a sentence for a person: what is wrong, with line and column of a voucher file or the argument's name, and what to do.
#[derive(Clone, Copy)]
pub struct Advice(pub RunFault);

// The sentence of a run that failed.
fn advice_on_failure(failure: Failure) -> &'static str {
    match failure {
        Failure::Memory => "The system refused memory. Free some, and run the command again.",
        Failure::Input => "Standard input can't be read.",
        Failure::Limit => "Standard input was read 1,000,000 times and has no end yet.",
        Failure::Output => {
            "Standard output takes no more. What the command does may be done all the same."
        }
        Failure::Clock => "The system gives no time or no random bytes.",
    }
}

// The sentence of a fault that names no line and no argument.
fn advice_on(fault: RunFault) -> &'static str {
    match fault {
        RunFault::Memory => advice_on_failure(Failure::Memory),
        RunFault::Full => "The shop has 1,000,000 tokens and takes no more.",
        RunFault::NoList => {
            "The shop has no check-in list of this number. GET /checkinlists/ shows them."
        }
        RunFault::NotAShop => {
            "This file is no shop's; init wants a name that no file has. Name another file."
        }
        RunFault::Version => {
            "The file's tables are of another version. boxoffice --version names this program's."
        }
        RunFault::Damaged(_) => {
            "Another program wrote to this file: it breaks a rule, which docs/FILE.md has by this number. Keep it, and put the last copy back."
        }
        RunFault::Store => {
            "The store refused the file. Does another program have it open? Is the disk full? Who may write there?"
        }
        RunFault::Header => {
            "The first line of the CSV file has to name the twelve columns, in their order. Nothing was imported."
        }
        RunFault::Line(_) | RunFault::Column(_, _) => "Nothing was imported.",
        RunFault::Unwritten => {
            "The export was cut off: what it is written to takes no more. Is the disk full? Run it again."
        }
        RunFault::TooManyLines => {
            "The CSV file has more than 100,000 lines. Split it. Nothing was imported."
        }
        RunFault::File => {
            "The shop's file can't be opened or made. Look at its name, and at who may read and write there."
        }
        RunFault::Linked => {
            "The shop's file has two names (a hard link). Delete the other name, or make it a copy of its own: find -samefile shows it."
        }
        RunFault::CsvFile => {
            "The CSV file can't be read. Look at its name, and at who may read it. Nothing was imported."
        }
        RunFault::Listen => {
            "The address takes no callers. Does another program listen there? Is it this machine's?"
        }
        RunFault::Argument(_) => "--help behind the command has an example.",
        RunFault::Run(failure) => advice_on_failure(failure),
    }
}

impl fmt::Display for Advice {
    fn fmt<W: fmt::Write>(&self, f: &mut fmt::Formatter<W>) -> fmt::Result {
        let rest = advice_on(self.0);
        match self.0 {
            RunFault::Line(line) => write!(
                f,
                "Line {line} of the CSV file, counted below its first, hasn't twelve columns or isn't UTF-8. {rest}"
            ),
            RunFault::Column(line, column) => write!(
                f,
                "Line {line} of the CSV file, counted below its first, column {column}, can't be read or is out of its range. {rest}"
            ),
            RunFault::Argument(argument) => {
                let range = argument.range();
                write!(
                    f,
                    "The value of {argument} can't be read or is out of its range. It has to be {range}. {rest}"
                )
            }
            _ => write!(f, "{rest}"),
        }
    }
}
