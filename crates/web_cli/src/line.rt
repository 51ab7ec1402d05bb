//! How a command line ends, and what it says of it.

ghost use Rattle.std.specs.Prelude.{◌≡◌};
ghost use Rattle.clap.specs.Words.{kind_of};
ghost use Rattle.std.specs.IoError.{error_kind};
ghost use Rattle.web_cli.specs.Line.{end_of_line, end_of_report, end_of_run, end_of_words};

use crate::advice::Advice;
use crate::argument::Argument;
use crate::console::Console;
use crate::ended::LineEnd;
use crate::fault::RunFault;
use crate::values::ReportFault;
use clap::Error;
use clap::error::ErrorKind;
use std::io;
use std::io::Eprint;

/// Says first, in a sentence, what is wrong and what to do; and on the last line with which fault the program ends.
pub fn tell_fault<O: Eprint>(rt: &O, fault: RunFault) -> LineEnd
    ensures { result ≡ LineEnd.Failed fault }
{
    let advice = Advice(fault);
    let _ = eprintln!(rt; "{advice}");
    let _ = eprintln!(rt; "boxoffice: fault {fault}");
    LineEnd::Failed(fault)
}

/// Says why the words of the line can't be had: one of them isn't UTF-8, or there is no memory.
pub fn tell_words<O: Eprint>(rt: &O, error: &io::Error) -> LineEnd
    ensures { result ≡ end_of_words (error_kind error.now) }
{
    match error.kind() {
        io::ErrorKind::InvalidData => {
            let _ = eprintln!(rt; "error: a word of the command line is not UTF-8");
            LineEnd::Wrong
        }
        _ => tell_fault(rt, RunFault::Memory),
    }
}

/// Says why a line asks for no report: none has this name; or the one of this name has no list, needs one, or its list can't be read.
pub fn tell_report<O: Eprint>(rt: &O, name: &str, fault: ReportFault) -> LineEnd
    ensures { result ≡ end_of_report fault }
{
    let _ = match fault {
        ReportFault::Unknown => eprintln!(rt;
            "error: there is no such report as '{name}'; there are: sales, and door with --list N"
        ),
        ReportFault::HasNoList => eprintln!(rt; "error: {name} has no --list"),
        ReportFault::NeedsList => {
            eprintln!(rt; "error: {name} needs --list N, the number of a check-in list")
        }
        ReportFault::Argument => {
            return tell_fault(rt, RunFault::Argument(Argument::List));
        }
    };
    LineEnd::Wrong
}

/// How a run ends, whose fault is told.
pub fn tell_run<O: Eprint>(rt: &O, run: Result<(), RunFault>) -> LineEnd
    ensures { result ≡ end_of_run run }
{
    match run {
        Ok(()) => LineEnd::Well,
        Err(fault) => tell_fault(rt, fault),
    }
}

/// Prints what is wrong with a line, or the help that it asks for.
pub fn answer_line<O: Console>(rt: &O, error: &Error) -> LineEnd
    ensures { result ≡ end_of_line (kind_of error.now) }
{
    match error.kind() {
        ErrorKind::OutOfMemory => tell_fault(rt, RunFault::Memory),
        ErrorKind::DisplayHelp | ErrorKind::DisplayVersion => {
            let _ = error.print(rt);
            LineEnd::Helped
        }
        _ => {
            let _ = error.print(rt);
            LineEnd::Wrong
        }
    }
}
