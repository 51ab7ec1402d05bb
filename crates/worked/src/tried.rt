//! A command line over devices that fail.

ghost use Rattle.std.specs.Prelude.{⊤};
ghost use Rattle.base_devices.specs.Blanks.{IsBlankOf};

use crate::failing::FailingWriter;
use app_run::run;
use base_devices::Drain;
use base_values::Body;
use std::alloc::{AllocError, Global};
use std::io::Read;
use std::marker::Brand;
use std::sync::ledger::{Blank, Ledger};
use web_cli::{HouseFiles, LineEnd, Report, RunFault, ServeOptions, counted, end_said, say};
use web_http::write_all;

/// What a command line came to.
#[derive(Drop)]
pub struct Tried {
    /// How it ended.
    pub ended: LineEnd,
    /// What was written.
    pub written: Vec<u8>,
}

/// The files of a machine that has one shop's file, `hall.db`, whose next token is the seventh.
#[derive(Clone, Copy)]
struct OneFile;

impl HouseFiles for OneFile {
    ghost made = { λ _ _ _ _. ⊤ };

    ghost added = { λ _ _ _. ⊤ };

    ghost served = { λ _ _ _ _. ⊤ };

    ghost worked = { λ _ _. ⊤ };

    ghost reported = { λ _ _ _. ⊤ };

    ghost exported = { λ _ _ _. ⊤ };

    ghost imported = { λ _ _ _. ⊤ };

    fn make(
        &self,
        _alloc: Global,
        file: &str,
        _organizer: &str,
        _event: &str,
    ) -> Result<(), RunFault> {
        if file == "hall.db" {
            Err(RunFault::NotAShop)
        } else {
            Ok(())
        }
    }

    fn add_token(&self, _alloc: Global, file: &str, _token: &str) -> Result<u64, RunFault> {
        if file == "hall.db" {
            Ok(7)
        } else {
            Err(RunFault::File)
        }
    }

    // Nobody comes.
    fn serve<W: Drain>(
        &self,
        _alloc: Global,
        file: &str,
        options: &ServeOptions<'_>,
        writer: &mut W,
    ) -> Result<(), RunFault> {
        if file != "hall.db" {
            return Err(RunFault::File);
        }
        match say(writer, b"listening on ", options.text.as_bytes()) {
            Ok(()) => Ok(()),
            Err(refused) => end_said(Err(refused)),
        }
    }

    fn work(&self, alloc: Global, file: &str) -> Result<Body, RunFault> {
        if file != "hall.db" {
            return Err(RunFault::File);
        }
        let mut done = Vec::new(alloc);
        done.extend_from_slice(b"expired 0, deleted 0, sent 0")?;
        Ok(Body::new(done))
    }

    fn report(&self, alloc: Global, file: &str, report: Report) -> Result<Body, RunFault> {
        if file != "hall.db" {
            return Err(RunFault::File);
        }
        let line = match report {
            Report::Sales => " total       0       0       0       0           0.00\n",
            Report::Door(1) => " total         0         0         0\n",
            Report::Door(_) => return Err(RunFault::NoList),
            Report::Version => "version 3\n",
        };
        let mut text = Vec::new(alloc);
        text.extend_from_slice(line.as_bytes())?;
        Ok(Body::new(text))
    }

    fn export<W: Drain>(&self, _alloc: Global, file: &str, writer: &mut W) -> Result<(), RunFault> {
        if file != "hall.db" {
            return Err(RunFault::File);
        }
        let line = "order,positionid,status,item,variation,price,voucher,secret\n";
        match write_all(writer, line.as_bytes()) {
            Ok(()) => Ok(()),
            Err(_) => Err(RunFault::Unwritten),
        }
    }

    // Of each other CSV file the first line's fourth column can't be read.
    fn import(&self, alloc: Global, file: &str, csv: &str) -> Result<Body, RunFault> {
        if file != "hall.db" {
            return Err(RunFault::File);
        }
        if csv != "codes.csv" {
            return Err(RunFault::Column(1, 4));
        }
        let mut text = Vec::new(alloc);
        text.extend_from_slice(b"A1 added\nA2 refused 10\n")?;
        Ok(Body::new(text))
    }
}

/// The words of a line, with a space between two.
pub(crate) fn words(alloc: Global, line: &str) -> Result<Vec<String>, AllocError> {
    let mut all = Vec::new(alloc);
    for word in line.split(' ') {
        all.push(String::from_str(alloc, word)?)?;
    }
    Ok(all)
}

// Runs a line as `run_line` does, with a ledger for each count of the devices.
fn run_line_with<A: Ledger, B: Ledger, C: Ledger, D: Ledger, R: Read + Drop>(
    rt: &HostRuntime,
    words: &[String],
    input: R,
    writes: usize,
    reads: Blank,
    read_failures: Blank,
    written: Blank,
    write_failures: Blank,
) -> Tried
    requires reads { IsBlankOf A.Ledger reads }
    requires read_failures { IsBlankOf B.Ledger read_failures }
    requires written { IsBlankOf C.Ledger written }
    requires write_failures { IsBlankOf D.Ledger write_failures }
{
    let output = FailingWriter::new(rt.alloc(), writes);
    let mut reader = counted::<R, A, B>(input, reads, read_failures);
    let mut writer = counted::<FailingWriter, C, D>(output, written, write_failures);
    let ended = run(rt, rt.alloc(), &OneFile, words, &mut reader, &mut writer);
    Tried {
        ended,
        written: writer.inner.into_taken(),
    }
}

/// Runs a command line from the reader to a writer that fails at its call number `writes + 1`.
pub(crate) fn run_line<R: Read + Drop>(
    rt: &HostRuntime,
    words: &[String],
    input: R,
    writes: usize,
) -> Tried {
    run_line_with::<Brand, Brand, Brand, Brand, R>(
        rt,
        words,
        input,
        writes,
        Blank::new(1),
        Blank::new(1),
        Blank::new(1),
        Blank::new(1),
    )
}
