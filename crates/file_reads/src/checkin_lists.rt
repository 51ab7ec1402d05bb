//! The table `checkin_lists`.

ghost use Rattle.file_rows.specs.Rows.{list_row};
ghost use Rattle.file_rows.specs.Fit.{IsFitList};
ghost use Rattle.file_reads.specs.Texts.{checkin_lists_text};

use crate::columns::Columns;
use crate::loaded::Loaded;
use file_rows::ListRow;
use file_schema::RowError;
use sqlite::Row;
use std::alloc::Global;

impl Loaded for ListRow {
    ghost as_row = { list_row };

    ghost fits = { IsFitList };

    ghost text = { checkin_lists_text };

    ghost tree = { 16 };

    ghost since = { 1 };

    #[tactic(auto, using(crate::proofs::CheckinListsLemmas::select_since, crate::proofs::CheckinListsLemmas::reads_only, crate::proofs::CheckinListsLemmas::alone_since))]
    fn statement() -> &'static str {
        "SELECT id, name, all_products, include_pending, multiple, after_exit FROM checkin_lists ORDER BY id"
    }

    fn read(alloc: Global, row: &Row) -> Result<ListRow, RowError> {
        match Columns::read_from(alloc, row, 0) {
            Ok((id, (name, (all_products, (include_pending, (multiple, (after_exit, ()))))))) => Ok(
                ListRow {
                    id,
                    name,
                    all_products,
                    include_pending,
                    allow_multiple_entries: multiple,
                    allow_entry_after_exit: after_exit,
                },
            ),
            Err(error) => Err(error),
        }
    }
}
