//! The table `quota_count`.

ghost use Rattle.file_rows.specs.Rows.{count_row};
ghost use Rattle.file_rows.specs.Changes.{head_of_count, with_count, without_count};

use crate::bound::run_bound;
use crate::stored::{Statements, Stored};
use file_rows::Column;
use file_schema::RowError;
use model_rows::QuotaCount;
use sqlite::{Alter, Transaction};

impl Stored for QuotaCount {
    ghost key = { λ r. r.quota };

    ghost as_row = { λ w. count_row (head_of_count w) };

    ghost with_row = { with_count };

    ghost without_row = { without_count };

    #[tactic(auto, using(crate::proofs::CountsLemmas::statements_are))]
    fn statements() -> Statements {
        Statements {
            insert: "INSERT INTO quota_count (quota_id, paid, pending, blocked, carts, waiting) VALUES (?1, ?2, ?3, ?4, ?5, ?6)",
            update: "UPDATE quota_count SET paid = ?2, pending = ?3, blocked = ?4, carts = ?5, waiting = ?6 WHERE quota_id = ?1",
            remove: "DELETE FROM quota_count WHERE quota_id = ?1",
        }
    }

    #[tactic(auto, using(crate::proofs::BoundLemmas::runs_with))]
    fn run<S: Alter>(&self, tx: &mut Transaction<'_, S>, sql: &str) -> Result<usize, RowError> {
        let columns = [
            self.quota.bind(),
            self.usage.paid.bind(),
            self.usage.pending.bind(),
            self.usage.blocked.bind(),
            self.usage.carts.bind(),
            self.usage.waiting.bind(),
        ];
        run_bound(tx, sql, &columns)
    }
}
