//! What takes the lines of an export, one after another.

ghost use Rattle.std.specs.Prelude.{IfErr, OnOk};

use crate::row::ExportRow;
use std::alloc::Global;

/// Why a sink takes no line.
#[derive(Clone, Copy, PartialEq, Eq, Drop)]
pub enum SinkFault {
    /// 6: out of memory.
    Memory,
    /// 73: what it writes to refuses.
    Output,
}

/// What takes the lines of an export, one after another. What each of them makes of it is the implementor's to say, so lines that are handed
/// to it one after another make of it what these steps lead to.
pub trait Sink {
    ghost use Rattle.model_export.specs.declared.row.ExportRow.{ExportRow};
    ghost use Rattle.model_export.specs.declared.sink.SinkFault.{SinkFault};

    // what a line that is taken makes of it
    ghost takes: { Self → ExportRow → Self → Type 0 };

    // what a line makes of it that is refused
    ghost refuses: { Self → ExportRow → SinkFault → Self → Type 0 };

    /// Takes a line. Refusals: 6, 73.
    fn row(&mut self, alloc: Global, row: &ExportRow) -> Result<(), SinkFault>
        ensures taken { OnOk result (takes self.old row.now self.new) }
        ensures refused { IfErr result (λ e. refuses self.old row.now e self.new) };
}
