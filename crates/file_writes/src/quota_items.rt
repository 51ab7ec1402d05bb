//! The table `quota_items`.

ghost use Rattle.file_rows.specs.Rows.{quota_item_row};
ghost use Rattle.file_rows.specs.Changes.{with_quota_item, without_quota_item};

use crate::bound::run_bound;
use crate::stored::{Statements, Stored};
use file_rows::{Column, QuotaItem};
use file_schema::RowError;
use sqlite::{Alter, Transaction};

impl Stored for QuotaItem {
    ghost key = { λ r. r.rowid };

    ghost as_row = { quota_item_row };

    ghost with_row = { with_quota_item };

    ghost without_row = { without_quota_item };

    #[tactic(auto, using(crate::proofs::KeptRows::quota_items_are))]
    fn statements() -> Statements {
        Statements {
            insert: "INSERT INTO quota_items (rowid, quota_id, item_id) VALUES (?1, ?2, ?3)",
            update: "UPDATE quota_items SET quota_id = ?2, item_id = ?3 WHERE rowid = ?1",
            remove: "DELETE FROM quota_items WHERE rowid = ?1",
        }
    }

    #[tactic(auto, using(crate::proofs::BoundLemmas::runs_with))]
    fn run<S: Alter>(&self, tx: &mut Transaction<'_, S>, sql: &str) -> Result<usize, RowError> {
        let columns = [self.rowid.bind(), self.quota.bind(), self.item.bind()];
        run_bound(tx, sql, &columns)
    }
}
