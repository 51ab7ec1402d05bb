//! Command lines over devices that fail, over an input without end, and lines of which each comes to something else. Printed
//! is what came of them.

use crate::endless::{REQUEST, Repeated};
use crate::failing::FailingReader;
use crate::lines::show_lines;
use crate::tried::{Tried, run_line, words};
use std::io::Read;
use web_cli::{LineEnd, RunFault};
use web_connection::Failure;

// What the line comes to where the reader fails at its call number `reads + 1`, and the writer at its call number
// `writes + 1`.
fn answered(
    rt: &HostRuntime,
    line: &[String],
    requests: &[u8],
    reads: usize,
    writes: usize,
) -> Tried {
    run_line(rt, line, FailingReader::new(requests, reads), writes)
}

// Whether a run that failed so wrote the front of what is written without a failure.
fn breaks_off(run: &Tried, failure: Failure, full: &[u8]) -> bool {
    run.ended == LineEnd::Failed(RunFault::Run(failure)) && full.starts_with(run.written.as_slice())
}

// Fails each call of the reader in turn. How many runs failed, and whether each broke off as it should.
fn failing_reads(rt: &HostRuntime, line: &[String], requests: &[u8], full: &[u8]) -> (usize, bool) {
    let mut good = true;
    for reads in 0..10_000usize {
        let run = answered(rt, line, requests, reads, usize::MAX);
        if run.ended == LineEnd::Well {
            return (reads, good && run.written.as_slice() == full);
        }
        good &= breaks_off(&run, Failure::Input, full);
    }
    (0, false)
}

// Fails each call of the writer in turn. How many runs failed, and whether each broke off as it should.
fn failing_writes(
    rt: &HostRuntime,
    line: &[String],
    requests: &[u8],
    full: &[u8],
) -> (usize, bool) {
    let mut good = true;
    for writes in 0..10_000usize {
        let run = answered(rt, line, requests, usize::MAX, writes);
        if run.ended == LineEnd::Well {
            return (writes, good && run.written.as_slice() == full);
        }
        good &= breaks_off(&run, Failure::Output, full);
    }
    (0, false)
}

// How many answers are written to requests without end, a byte a read, where all of them are this one.
fn without_end(rt: &HostRuntime, line: &[String], answer: &[u8]) -> Option<usize> {
    let run = run_line(rt, line, Repeated::new(), usize::MAX);
    let all = run
        .written
        .chunks(answer.len().max(1))
        .all(|text| text == answer);
    if run.ended == LineEnd::Failed(RunFault::Run(Failure::Limit)) && all {
        Some(run.written.chunks(answer.len().max(1)).count())
    } else {
        None
    }
}

/// Runs a line over the requests of the standard input, with each call of its devices failing in turn, and then the others.
pub(crate) fn show_devices(rt: &HostRuntime) -> anyhow::Result<()> {
    let alloc = rt.alloc();
    let line = words(
        alloc,
        "boxoffice feed --from 2026-05-01T10:00:00Z --step 60",
    )?;
    let line = line.as_slice();
    let mut requests = Vec::new(alloc);
    rt.stdin().read_to_end(&mut requests)?;
    let full = answered(rt, line, &requests, usize::MAX, usize::MAX);
    println!(rt;
        "without a failure: {} bytes, ended well: {}",
        full.written.len(),
        full.ended == LineEnd::Well
    )?;
    let (reads, good) = failing_reads(rt, line, &requests, &full.written);
    println!(rt; "each of {reads} reads failing in turn: fault 82 after a front of that: {good}")?;
    let (writes, good) = failing_writes(rt, line, &requests, &full.written);
    let some = writes > 4;
    println!(rt;
        "each of the writes failing in turn: fault 83 after a front of that: {}",
        good && some
    )?;
    let once = answered(rt, line, REQUEST, usize::MAX, usize::MAX);
    let count = without_end(rt, line, &once.written);
    println!(rt; "{}", String::from_utf8_lossy(alloc, &once.written)?)?;
    println!(rt;
        "without end, a byte a read: answers {}, then fault {}",
        count.unwrap_or(0),
        Failure::Limit.number()
    )?;
    show_lines(rt, &requests)
}
