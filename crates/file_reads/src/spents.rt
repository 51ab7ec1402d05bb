//! The table `voucher_spent`.

ghost use Rattle.std.specs.Prelude.{⊤};
ghost use Rattle.file_rows.specs.Rows.{spent_row};
ghost use Rattle.file_reads.specs.Texts.{spents_text};

use crate::columns::Columns;
use crate::loaded::Loaded;
use file_rows::SpentRow;
use file_schema::RowError;
use sqlite::Row;
use std::alloc::Global;

impl Loaded for SpentRow {
    ghost as_row = { spent_row };

    ghost fits = { λ w. ⊤ };

    ghost text = { spents_text };

    ghost tree = { 30 };

    ghost since = { 3 };

    #[tactic(auto, using(crate::proofs::SpentsLemmas::select_since, crate::proofs::SpentsLemmas::reads_only, crate::proofs::SpentsLemmas::alone_since))]
    fn statement() -> &'static str {
        "SELECT voucher_id, spent FROM voucher_spent ORDER BY voucher_id"
    }

    fn read(alloc: Global, row: &Row) -> Result<SpentRow, RowError> {
        match Columns::read_from(alloc, row, 0) {
            Ok((voucher_id, (spent, ()))) => Ok(SpentRow { voucher_id, spent }),
            Err(error) => Err(error),
        }
    }
}
