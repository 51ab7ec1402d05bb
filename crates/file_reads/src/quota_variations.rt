//! The table `quota_variations`.

ghost use Rattle.std.specs.Prelude.{⊤};
ghost use Rattle.file_rows.specs.Rows.{quota_variation_row};
ghost use Rattle.file_reads.specs.Texts.{quota_variations_text};

use crate::columns::Columns;
use crate::loaded::Loaded;
use file_rows::QuotaVariation;
use file_schema::RowError;
use sqlite::Row;
use std::alloc::Global;

impl Loaded for QuotaVariation {
    ghost as_row = { quota_variation_row };

    ghost fits = { λ w. ⊤ };

    ghost text = { quota_variations_text };

    ghost tree = { 6 };

    ghost since = { 1 };

    #[tactic(auto, using(crate::proofs::QuotaVariationsLemmas::select_since, crate::proofs::QuotaVariationsLemmas::reads_only, crate::proofs::QuotaVariationsLemmas::alone_since))]
    fn statement() -> &'static str {
        "SELECT rowid, quota_id, variation_id FROM quota_variations ORDER BY rowid"
    }

    fn read(alloc: Global, row: &Row) -> Result<QuotaVariation, RowError> {
        match Columns::read_from(alloc, row, 0) {
            Ok((rowid, (quota_id, (variation_id, ())))) => Ok(QuotaVariation {
                rowid,
                quota: quota_id,
                variation: variation_id,
            }),
            Err(error) => Err(error),
        }
    }
}
