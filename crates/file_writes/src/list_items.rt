//! The table `list_items`.

ghost use Rattle.file_rows.specs.Rows.{list_item_row};
ghost use Rattle.file_rows.specs.Changes.{with_list_item, without_list_item};

use crate::bound::run_bound;
use crate::stored::{Statements, Stored};
use file_rows::{Column, ListItem};
use file_schema::RowError;
use sqlite::{Alter, Transaction};

impl Stored for ListItem {
    ghost key = { λ r. r.rowid };

    ghost as_row = { list_item_row };

    ghost with_row = { with_list_item };

    ghost without_row = { without_list_item };

    #[tactic(auto, using(crate::proofs::ListItemsLemmas::statements_are))]
    fn statements() -> Statements {
        Statements {
            insert: "INSERT INTO list_items (rowid, list_id, item_id) VALUES (?1, ?2, ?3)",
            update: "UPDATE list_items SET list_id = ?2, item_id = ?3 WHERE rowid = ?1",
            remove: "DELETE FROM list_items WHERE rowid = ?1",
        }
    }

    #[tactic(auto, using(crate::proofs::BoundLemmas::runs_with))]
    fn run<S: Alter>(&self, tx: &mut Transaction<'_, S>, sql: &str) -> Result<usize, RowError> {
        let columns = [self.rowid.bind(), self.list.bind(), self.item.bind()];
        run_bound(tx, sql, &columns)
    }
}
