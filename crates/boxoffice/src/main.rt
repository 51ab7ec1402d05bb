//! Which streams and files of the machine does the program use?
#![tactic(auto)]

ghost use Rattle.base_devices.specs.Blanks.{IsBlankOf};

mod files;
mod looks;

use crate::files::HostFiles;
use app_files::{House, Shelf};
use app_run::run;
use sqlite::{Alter, Connection, File, FileStore};
use std::io;
use std::io::{Stdin, Stdout};
use std::marker::Brand;
use std::process::ExitCode;
use std::sync::ledger::{Blank, Ledger};
use web_cli::{LineEnd, counted, tell_words};

// The words of the command line.
fn words(rt: &HostRuntime) -> io::Result<Vec<String>> {
    Ok(std::env::args(rt)?.collect(rt.alloc())?)
}

// Runs a command line over standard input and output and these files, with a ledger for each count of theirs.
fn run_words<
    S: Alter + Drop,
    F: Shelf<Connection<S>> + Drop,
    A: Ledger,
    B: Ledger,
    C: Ledger,
    D: Ledger,
>(
    rt: &HostRuntime,
    files: F,
    words: &[String],
    reads: Blank,
    read_failures: Blank,
    writes: Blank,
    write_failures: Blank,
) -> LineEnd
    requires reads { IsBlankOf A.Ledger reads }
    requires read_failures { IsBlankOf B.Ledger read_failures }
    requires writes { IsBlankOf C.Ledger writes }
    requires write_failures { IsBlankOf D.Ledger write_failures }
{
    let mut reader = counted::<Stdin, A, B>(rt.stdin(), reads, read_failures);
    let mut writer = counted::<Stdout, C, D>(rt.stdout(), writes, write_failures);
    run(
        rt,
        rt.alloc(),
        &House::over(rt, files),
        words,
        &mut reader,
        &mut writer,
    )
}

fn main(rt: HostRuntime) -> ExitCode {
    let ended = match words(&rt) {
        Ok(words) => run_words::<FileStore<File>, HostFiles<'_>, Brand, Brand, Brand, Brand>(
            &rt,
            HostFiles { rt: &rt },
            words.as_slice(),
            Blank::new(1),
            Blank::new(1),
            Blank::new(1),
            Blank::new(1),
        ),
        Err(error) => tell_words(&rt, &error),
    };
    ExitCode::from(ended.status())
}
