//! The table `waiting`.

ghost use Rattle.file_rows.specs.Rows.{waiting_row};
ghost use Rattle.file_rows.specs.Changes.{with_waiting, without_waiting};

use crate::bound::run_bound;
use crate::stored::{Statements, Stored};
use file_rows::Column;
use file_schema::RowError;
use model_rows::Waiting;
use sqlite::{Alter, Transaction};

impl Stored for Waiting {
    ghost key = { λ r. r.id };

    ghost as_row = { waiting_row };

    ghost with_row = { with_waiting };

    ghost without_row = { without_waiting };

    #[tactic(auto, using(crate::proofs::WaitingLemmas::statements_are))]
    fn statements() -> Statements {
        Statements {
            insert: "INSERT INTO waiting (id, email, item_id, variation_id, priority, created, voucher_id) VALUES (?1, ?2, ?3, ?4, ?5, ?6, ?7)",
            update: "UPDATE waiting SET email = ?2, item_id = ?3, variation_id = ?4, priority = ?5, created = ?6, voucher_id = ?7 WHERE id = ?1",
            remove: "DELETE FROM waiting WHERE id = ?1",
        }
    }

    #[tactic(auto, using(crate::proofs::BoundLemmas::runs_with))]
    fn run<S: Alter>(&self, tx: &mut Transaction<'_, S>, sql: &str) -> Result<usize, RowError> {
        let columns = [
            self.id.bind(),
            self.email.bind(),
            self.product.item.bind(),
            self.product.variation.bind(),
            self.priority.bind(),
            self.created.bind(),
            self.voucher.bind(),
        ];
        run_bound(tx, sql, &columns)
    }
}
