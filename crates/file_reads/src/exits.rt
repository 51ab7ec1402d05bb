//! The table `quota_exited`.

ghost use Rattle.std.specs.Prelude.{⊤};
ghost use Rattle.file_rows.specs.Rows.{exit_row};
ghost use Rattle.file_reads.specs.Texts.{exits_text};

use crate::columns::Columns;
use crate::loaded::Loaded;
use file_rows::ExitRow;
use file_schema::RowError;
use sqlite::Row;
use std::alloc::Global;

impl Loaded for ExitRow {
    ghost as_row = { exit_row };

    ghost fits = { λ w. ⊤ };

    ghost text = { exits_text };

    ghost tree = { 28 };

    ghost since = { 2 };

    #[tactic(auto, using(crate::proofs::ExitsLemmas::select_since, crate::proofs::ExitsLemmas::reads_only, crate::proofs::ExitsLemmas::alone_since))]
    fn statement() -> &'static str {
        "SELECT quota_id, exited FROM quota_exited ORDER BY quota_id"
    }

    fn read(alloc: Global, row: &Row) -> Result<ExitRow, RowError> {
        match Columns::read_from(alloc, row, 0) {
            Ok((quota_id, (exited, ()))) => Ok(ExitRow {
                quota: quota_id,
                exited,
            }),
            Err(error) => Err(error),
        }
    }
}
