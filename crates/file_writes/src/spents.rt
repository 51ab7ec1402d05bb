//! The table `voucher_spent`.

ghost use Rattle.file_rows.specs.Rows.{spent_row};
ghost use Rattle.file_rows.specs.Changes.{with_spent, without_spent};

use crate::bound::run_bound;
use crate::stored::{Statements, Stored};
use file_rows::{Column, SpentRow};
use file_schema::RowError;
use sqlite::{Alter, Transaction};

impl Stored for SpentRow {
    ghost key = { λ r. r.voucher_id };

    ghost as_row = { spent_row };

    ghost with_row = { with_spent };

    ghost without_row = { without_spent };

    #[tactic(auto, using(crate::proofs::SpentsLemmas::statements_are))]
    fn statements() -> Statements {
        Statements {
            insert: "INSERT INTO voucher_spent (voucher_id, spent) VALUES (?1, ?2)",
            update: "UPDATE voucher_spent SET spent = ?2 WHERE voucher_id = ?1",
            remove: "DELETE FROM voucher_spent WHERE voucher_id = ?1",
        }
    }

    #[tactic(auto, using(crate::proofs::BoundLemmas::runs_with))]
    fn run<S: Alter>(&self, tx: &mut Transaction<'_, S>, sql: &str) -> Result<usize, RowError> {
        let columns = [self.voucher_id.bind(), self.spent.bind()];
        run_bound(tx, sql, &columns)
    }
}
