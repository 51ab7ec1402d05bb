//! What a server tells on standard error of its callers. No clause speaks of what is told.

ghost use Rattle.std.specs.Prelude.{◌≡◌, None, false};

use crate::clock::{System, moment_shown};
use base_dates::moment_text;
use base_values::{Answer, Moment, StatusCode};
use std::alloc::{AllocError, Global};
use std::fmt;
use std::time::{Clock, Instant};
use web_cli::{Console, program_version};
use web_http::Frame;

/// The most bytes of a part of a path that is told. A ticket's secret is longer.
const PART: usize = 20;

/// The most bytes of a path that is told.
const PATH: usize = 200;

/// Why a connection ended.
#[derive(Clone, Copy, Drop, PartialEq, Eq)]
pub(crate) enum Closed {
    /// All that came was answered, or it broke off.
    Done,
    /// Its time was up.
    Late,
    /// Another caller had its slot.
    GaveWay,
    /// An answer couldn't be brought.
    Unreachable,
}

impl fmt::Display for Closed {
    fn fmt<W: fmt::Write>(&self, f: &mut fmt::Formatter<W>) -> fmt::Result {
        let word = match self {
            Closed::Done => "done",
            Closed::Late => "late",
            Closed::GaveWay => "gave_way",
            Closed::Unreachable => "unreachable",
        };
        write!(f, "{word}")
    }
}

// A part of a request line that is told as it is, where it is short and has signs alone that are printed; else a star stands for it.
#[derive(Clone, Copy)]
struct Part<'a>(&'a [u8]);

impl fmt::Display for Part<'_> {
    fn fmt<W: fmt::Write>(&self, f: &mut fmt::Formatter<W>) -> fmt::Result {
        let is_plain = self.0.len() <= PART && self.0.iter().all(|b| matches!(*b, 33..=126));
        match str::from_utf8(self.0) {
            Ok(text) if is_plain => write!(f, "{text}"),
            _ => write!(f, "*"),
        }
    }
}

// The path of a target, part by part, without its query.
#[derive(Clone, Copy)]
struct Path<'a>(&'a [u8]);

impl fmt::Display for Path<'_> {
    fn fmt<W: fmt::Write>(&self, f: &mut fmt::Formatter<W>) -> fmt::Result {
        if self.0.len() > PATH {
            return write!(f, "*");
        }
        let mut is_first = true;
        for part in self.0.split(|b| *b == b'/') {
            if !is_first {
                write!(f, "/")?;
            }
            is_first = false;
            write!(f, "{}", Part(part))?;
        }
        Ok(())
    }
}

// The path of a target: what is before its query.
fn path_of(target: &[u8]) -> &[u8] {
    match target.iter().position(|b| *b == b'?') {
        Some(at) => target.get(..at).unwrap_or(target),
        None => target,
    }
}

// The status of an answer.
fn status_of(answer: &Answer) -> StatusCode {
    match answer {
        Answer::Decided(response) => response.status,
        Answer::Unavailable => StatusCode::SERVICE_UNAVAILABLE,
    }
}

// When a log begins, where one is asked for and the clock can be read.
fn begun_at<R: Clock>(rt: &R, is_asked: bool) -> Option<Instant>
    ensures { is_asked ≡ false → result ≡ None }
{
    match is_asked {
        true => Instant::now(rt).ok(),
        false => None,
    }
}

/// Where a server tells of its file, its requests and its connections: standard error, or nowhere. A line for which memory is refused isn't written.
#[derive(Drop)]
pub struct Log<'a, R> {
    rt: &'a R,
    alloc: Global,
    // The name of the shop's file.
    file: &'a str,
    // When it began, where it is asked for.
    begun: Option<Instant>,
}

impl<'a, R: Clock + System + Console> Log<'a, R> {
    /// A log of the server whose shop is in that file, where one is asked for and the clock can be read.
    pub fn new(rt: &'a R, alloc: Global, file: &'a str, is_asked: bool) -> Log<'a, R>
        ensures { is_asked ≡ false → result.begun ≡ None }
    {
        let begun = begun_at(rt, is_asked);
        Log {
            rt,
            alloc,
            file,
            begun,
        }
    }

    /// When a request comes, where that is told.
    pub(crate) fn start(&self) -> Option<Instant> {
        self.begun?;
        Instant::now(self.rt).ok()
    }

    // How many microseconds ago that was.
    fn micros_since(&self, start: Instant) -> u64 {
        match start.elapsed(self.rt) {
            Ok(since) => {
                let seconds = since.as_secs().saturating_mul(1_000_000);
                seconds.saturating_add(since.subsec_micros() as u64)
            }
            Err(_) => 0,
        }
    }

    // Writes a line, where there is memory for it.
    fn tell(&self, line: Result<String, AllocError>) {
        if let Ok(line) = line {
            let _ = eprint!(self.rt; "{line}");
        }
    }

    // When it is, where that can be said.
    fn moment(&self) -> Option<String> {
        let moment = moment_shown(self.rt.show_clock())?;
        moment_text(self.alloc, moment).ok()
    }

    /// The file was opened: version, name, how many rows it has, and how long that took since the log began.
    pub fn tell_opened(&self, rows: u64) {
        if let (Some(begun), Some(moment)) = (self.begun, self.moment()) {
            let (version, file, micros) = (program_version(), self.file, self.micros_since(begun));
            self.tell(format!(in self.alloc;
                "{moment} boxoffice {version} opened {file}: {rows} rows, {micros} microseconds\n"
            ));
        }
    }

    /// A request of a caller was answered: moment, connection, method, path, status and microseconds.
    pub(crate) fn tell_request(
        &self,
        start: Instant,
        moment: Moment,
        caller: u64,
        frame: &Frame<'_>,
        answer: &Answer,
    ) {
        let Ok(moment) = moment_text(self.alloc, moment) else {
            return;
        };
        let (method, path) = (Part(frame.method()), Path(path_of(frame.target())));
        let (status, micros) = (status_of(answer).as_u16(), self.micros_since(start));
        self.tell(format!(in self.alloc; "{moment} {caller} {method} {path} {status} {micros}\n"));
    }

    /// The connection of a caller ended: moment, connection, and why.
    pub(crate) fn tell_closed(&self, caller: Option<u64>, why: Closed) {
        if self.begun.is_none() {
            return;
        }
        if let (Some(caller), Some(moment)) = (caller, self.moment()) {
            self.tell(format!(in self.alloc; "{moment} {caller} (ended) {why}\n"));
        }
    }
}
