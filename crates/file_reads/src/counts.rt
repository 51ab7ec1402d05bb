//! The table `quota_count`.

ghost use Rattle.std.specs.Prelude.{⊤};
ghost use Rattle.file_rows.specs.Rows.{count_row};
ghost use Rattle.file_reads.specs.Texts.{counts_text};

use crate::columns::Columns;
use crate::loaded::Loaded;
use file_rows::CountRow;
use file_schema::RowError;
use sqlite::Row;
use std::alloc::Global;

impl Loaded for CountRow {
    ghost as_row = { count_row };

    ghost fits = { λ w. ⊤ };

    ghost text = { counts_text };

    ghost tree = { 21 };

    ghost since = { 1 };

    #[tactic(auto, using(crate::proofs::CountsLemmas::select_since, crate::proofs::CountsLemmas::reads_only, crate::proofs::CountsLemmas::alone_since))]
    fn statement() -> &'static str {
        "SELECT quota_id, paid, pending, blocked, carts, waiting FROM quota_count ORDER BY quota_id"
    }

    fn read(alloc: Global, row: &Row) -> Result<CountRow, RowError> {
        match Columns::read_from(alloc, row, 0) {
            Ok((quota_id, (paid, (pending, (blocked, (carts, (waiting, ()))))))) => Ok(CountRow {
                quota: quota_id,
                paid,
                pending,
                blocked,
                carts,
                waiting,
            }),
            Err(error) => Err(error),
        }
    }
}
