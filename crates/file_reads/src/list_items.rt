//! The table `list_items`.

ghost use Rattle.std.specs.Prelude.{⊤};
ghost use Rattle.file_rows.specs.Rows.{list_item_row};
ghost use Rattle.file_reads.specs.Texts.{list_items_text};

use crate::columns::Columns;
use crate::loaded::Loaded;
use file_rows::ListItem;
use file_schema::RowError;
use sqlite::Row;
use std::alloc::Global;

impl Loaded for ListItem {
    ghost as_row = { list_item_row };

    ghost fits = { λ w. ⊤ };

    ghost text = { list_items_text };

    ghost tree = { 17 };

    ghost since = { 1 };

    #[tactic(auto, using(crate::proofs::ListItemsLemmas::select_since, crate::proofs::ListItemsLemmas::reads_only, crate::proofs::ListItemsLemmas::alone_since))]
    fn statement() -> &'static str {
        "SELECT rowid, list_id, item_id FROM list_items ORDER BY rowid"
    }

    fn read(alloc: Global, row: &Row) -> Result<ListItem, RowError> {
        match Columns::read_from(alloc, row, 0) {
            Ok((rowid, (list_id, (item_id, ())))) => Ok(ListItem {
                rowid,
                list: list_id,
                item: item_id,
            }),
            Err(error) => Err(error),
        }
    }
}
