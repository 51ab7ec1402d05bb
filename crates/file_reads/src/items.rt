//! The table `items`.

ghost use Rattle.file_rows.specs.Rows.{item_row};
ghost use Rattle.file_rows.specs.Fit.{IsFitItem};
ghost use Rattle.file_reads.specs.Texts.{items_text};

use crate::columns::Columns;
use crate::loaded::Loaded;
use file_schema::RowError;
use model_catalogue::Item;
use sqlite::Row;
use std::alloc::Global;

impl Loaded for Item {
    ghost as_row = { item_row };

    ghost fits = { IsFitItem };

    ghost text = { items_text };

    ghost tree = { 1 };

    ghost since = { 1 };

    #[tactic(auto, using(crate::proofs::ItemsLemmas::select_since, crate::proofs::ItemsLemmas::reads_only, crate::proofs::ItemsLemmas::alone_since))]
    fn statement() -> &'static str {
        "SELECT id, name, default_price, active, varied FROM items ORDER BY id"
    }

    fn read(alloc: Global, row: &Row) -> Result<Item, RowError> {
        match Columns::read_from(alloc, row, 0) {
            Ok((id, (name, (default_price, (active, (varied, ())))))) => Ok(Item {
                id,
                name,
                default_price,
                active,
                varied,
            }),
            Err(error) => Err(error),
        }
    }
}
