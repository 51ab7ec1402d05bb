//! The table `quota_release`.

ghost use Rattle.std.specs.Prelude.{⊤};
ghost use Rattle.file_rows.specs.Rows.{release_row};
ghost use Rattle.file_reads.specs.Texts.{releases_text};

use crate::columns::Columns;
use crate::loaded::Loaded;
use file_rows::ReleaseRow;
use file_schema::RowError;
use sqlite::Row;
use std::alloc::Global;

impl Loaded for ReleaseRow {
    ghost as_row = { release_row };

    ghost fits = { λ w. ⊤ };

    ghost text = { releases_text };

    ghost tree = { 27 };

    ghost since = { 2 };

    #[tactic(auto, using(crate::proofs::ReleasesLemmas::select_since, crate::proofs::ReleasesLemmas::reads_only, crate::proofs::ReleasesLemmas::alone_since))]
    fn statement() -> &'static str {
        "SELECT quota_id FROM quota_release ORDER BY quota_id"
    }

    fn read(alloc: Global, row: &Row) -> Result<ReleaseRow, RowError> {
        match Columns::read_from(alloc, row, 0) {
            Ok((quota_id, ())) => Ok(ReleaseRow { quota: quota_id }),
            Err(error) => Err(error),
        }
    }
}
