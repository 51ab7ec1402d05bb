//! What a terminal shows of a command that takes long. Clauses speak of the count alone, and of no line that is shown.

ghost use Rattle.std.specs.Prelude.{◌≡◌, None, Some};

use file_scan::Progress;
use std::fmt;
use web_cli::Console;

// How many rows are read between two times that a terminal is told.
const STEP: u64 = 10_000;

// From how many rows on a terminal is told of an opening: they take half a second and more.
const LEAST: u64 = 50_000;

// A count, with a comma before each three digits.
#[derive(Clone, Copy)]
struct Grouped(u64);

impl fmt::Display for Grouped {
    fn fmt<W: fmt::Write>(&self, f: &mut fmt::Formatter<W>) -> fmt::Result {
        let (millions, thousands, ones) = (self.0 / 1_000_000, self.0 / 1000 % 1000, self.0 % 1000);
        if millions > 0 {
            write!(f, "{millions},{thousands:03},{ones:03}")
        } else if thousands > 0 {
            write!(f, "{thousands},{ones:03}")
        } else {
            write!(f, "{ones}")
        }
    }
}

/// Shows how many rows were read so far, in one line on standard error, where that is a terminal.
#[derive(Drop)]
pub(crate) struct Shown<'a, O> {
    rt: &'a O,
    // How many order positions there are, of an export; of an opening nothing tells before how many rows there are.
    all: Option<u64>,
    count: u64,
    is_begun: bool,
}

impl<'a, O: Console> Shown<'a, O> {
    /// The rows of an opening.
    pub(crate) fn opening(rt: &'a O) -> Shown<'a, O>
        ensures all { result.all ≡ None }
        ensures count { result.count ≡ 0 }
    {
        Shown {
            rt,
            all: None,
            count: 0,
            is_begun: false,
        }
    }

    /// The order positions of an export, of which there are so many.
    pub(crate) fn exporting(rt: &'a O, all: u64) -> Shown<'a, O>
        ensures all { result.all ≡ Some all }
        ensures count { result.count ≡ 0 }
    {
        Shown {
            rt,
            all: Some(all),
            count: 0,
            is_begun: false,
        }
    }

    // Puts its line, over the one that stands there.
    fn tell(&mut self)
        ensures { self.new.count ≡ self.old.count }
    {
        if !self.rt.has_reader() {
            return;
        }
        self.is_begun = true;
        let count = Grouped(self.count);
        let _ = match self.all {
            Some(all) => {
                let all = Grouped(all);
                eprint!(self.rt; "\rboxoffice: {count} of {all} positions")
            }
            None => eprint!(self.rt; "\rboxoffice: {count} rows read"),
        };
    }

    /// Ends its line, where it began one: whatever is said next begins another. How many rows there were.
    pub(crate) fn end(mut self) -> u64
        ensures { result ≡ self.entry.count }
    {
        if self.is_begun {
            self.tell();
            let _ = eprintln!(self.rt; "");
        }
        self.count
    }
}

impl<O: Console> Progress for Shown<'_, O> {
    fn row(&mut self) {
        self.count = self.count.saturating_add(1);
        if self.count % STEP == 0 && (self.all.is_some() || self.count >= LEAST) {
            self.tell();
        }
    }
}

/// Shows how many vouchers a file asks for, which are added together.
pub(crate) fn tell_read<O: Console>(rt: &O, count: u64) {
    if rt.has_reader() {
        let count = Grouped(count);
        let _ = eprintln!(rt; "boxoffice: {count} vouchers read, now adding them");
    }
}
