//! An export that is written while it is read.

ghost use Rattle.std.specs.Prelude.{◌≡◌, []};
ghost use Rattle.web_http.specs.Written.{writer_page};
ghost use Rattle.app_csv.specs.Handing.{HandsOn, IsReady, gathered_text};

use crate::positions::Lines;
use base_devices::Drain;
use model_export::{ExportRow, Sink, SinkFault};
use std::alloc::Global;
use web_http::write_all;

// How many bytes are gathered before they are handed on.
const MOST_GATHERED: usize = 65_536;

/// What writes each row of an export as a line of a CSV file: it gathers lines up to some 64 kB, and hands them on to a writer. The last ones
/// are handed on by `hand_on`.
#[derive(Drop)]
pub struct CsvSink<'a, W> {
    out: &'a mut W,
    lines: &'a mut Lines,
}

impl<'a, W: Drain> CsvSink<'a, W> {
    /// Over a writer, with lines that are gathered already and go on to be. It holds no memory of its own, so that its end gives the writer back.
    pub fn over(out: &'a mut W, lines: &'a mut Lines) -> CsvSink<'a, W>
        ensures same { result.out.ghost_name ≡ out.entry.ghost_name }
        ensures out { result.out.now ≡ out.old }
        ensures lines { result.lines.now ≡ lines.old }
    {
        CsvSink { out, lines }
    }

    /// Hands on what is gathered. Refusals: 6, and then nothing was handed on; 73, and then a part was.
    pub fn hand_on(&mut self, alloc: Global) -> Result<(), SinkFault>
        ensures same { self.new.out.ghost_name ≡ self.old.out.ghost_name }
        ensures ready { IsReady self.new.lines.now }
        ensures empty { gathered_text self.new.lines.now ≡ [] }
        ensures handed { HandsOn result (gathered_text self.old.lines.now)
            (writer_page W.Drain self.old.out.now) (writer_page W.Drain self.new.out.now) }
    {
        match self.lines.take(alloc) {
            Ok(text) => match write_all(self.out, text.as_slice()) {
                Ok(()) => Ok(()),
                Err(_) => Err(SinkFault::Output),
            },
            Err(_) => Err(SinkFault::Memory),
        }
    }
}

impl<W: Drain> Sink for CsvSink<'_, W> {
    ghost use Rattle.std.specs.Prelude.{◌≡◌, ◌++◌};
    ghost use Rattle.web_http.specs.Written.{writer_page};
    ghost use Rattle.app_csv.specs.Handing.{Goes, IsReady, Stops, gathered_text};
    ghost use Rattle.app_csv.specs.PositionLines.{row_line};

    ghost takes = { λ old row new. (new.out.ghost_name ≡ old.out.ghost_name)
        × (IsReady old.lines.now → IsReady new.lines.now
        × Goes (row_line row) (gathered_text old.lines.now) (gathered_text new.lines.now)
        (writer_page W.Drain old.out.now) (writer_page W.Drain new.out.now)) };

    ghost refuses = { λ old row fault new. (new.out.ghost_name ≡ old.out.ghost_name)
        × (IsReady old.lines.now → Stops fault (gathered_text old.lines.now ++ row_line row)
        (writer_page W.Drain old.out.now) (writer_page W.Drain new.out.now)) };

    fn row(&mut self, alloc: Global, row: &ExportRow) -> Result<(), SinkFault> {
        match self.lines.add(alloc, row) {
            Ok(()) => {}
            Err(_) => return Err(SinkFault::Memory),
        }
        if self.lines.len() < MOST_GATHERED {
            return Ok(());
        }
        self.hand_on(alloc)
    }
}
