//! The table `quota_items`.

ghost use Rattle.std.specs.Prelude.{⊤};
ghost use Rattle.file_rows.specs.Rows.{quota_item_row};
ghost use Rattle.file_reads.specs.Texts.{quota_items_text};

use crate::columns::Columns;
use crate::loaded::Loaded;
use file_rows::QuotaItem;
use file_schema::RowError;
use sqlite::Row;
use std::alloc::Global;

impl Loaded for QuotaItem {
    ghost as_row = { quota_item_row };

    ghost fits = { λ w. ⊤ };

    ghost text = { quota_items_text };

    ghost tree = { 4 };

    ghost since = { 1 };

    #[tactic(auto, using(crate::proofs::SelectLemmas::quota_items_selected))]
    fn statement() -> &'static str {
        "SELECT rowid, quota_id, item_id FROM quota_items ORDER BY rowid"
    }

    fn read(alloc: Global, row: &Row) -> Result<QuotaItem, RowError> {
        match Columns::read_from(alloc, row, 0) {
            Ok((rowid, (quota_id, (item_id, ())))) => Ok(QuotaItem {
                rowid,
                quota: quota_id,
                item: item_id,
            }),
            Err(error) => Err(error),
        }
    }
}
