//! The table `quotas`.

ghost use Rattle.file_rows.specs.Rows.{quota_row};
ghost use Rattle.file_rows.specs.Fit.{IsFitQuota};
ghost use Rattle.file_reads.specs.Texts.{quotas_text};

use crate::columns::Columns;
use crate::loaded::Loaded;
use file_rows::QuotaRow;
use file_schema::RowError;
use sqlite::Row;
use std::alloc::Global;

impl Loaded for QuotaRow {
    ghost as_row = { quota_row };

    ghost fits = { IsFitQuota };

    ghost text = { quotas_text };

    ghost tree = { 3 };

    ghost since = { 1 };

    #[tactic(auto, using(crate::proofs::QuotasLemmas::select_since, crate::proofs::QuotasLemmas::reads_only, crate::proofs::QuotasLemmas::alone_since))]
    fn statement() -> &'static str {
        "SELECT id, name, size FROM quotas ORDER BY id"
    }

    fn read(alloc: Global, row: &Row) -> Result<QuotaRow, RowError> {
        match Columns::read_from(alloc, row, 0) {
            Ok((id, (name, (size, ())))) => Ok(QuotaRow { id, name, size }),
            Err(error) => Err(error),
        }
    }
}
