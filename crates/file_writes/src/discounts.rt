//! The table `position_discount`.

ghost use Rattle.file_rows.specs.Rows.{discount_row};
ghost use Rattle.file_rows.specs.Changes.{with_discount, without_discount};

use crate::bound::run_bound;
use crate::stored::{Statements, Stored};
use file_rows::{Column, DiscountRow};
use file_schema::RowError;
use sqlite::{Alter, Transaction};

impl Stored for DiscountRow {
    ghost key = { λ r. r.position_id };

    ghost as_row = { discount_row };

    ghost with_row = { with_discount };

    ghost without_row = { without_discount };

    #[tactic(auto, using(crate::proofs::DiscountsLemmas::statements_are))]
    fn statements() -> Statements {
        Statements {
            insert: "INSERT INTO position_discount (position_id, discount) VALUES (?1, ?2)",
            update: "UPDATE position_discount SET discount = ?2 WHERE position_id = ?1",
            remove: "DELETE FROM position_discount WHERE position_id = ?1",
        }
    }

    #[tactic(auto, using(crate::proofs::BoundLemmas::runs_with))]
    fn run<S: Alter>(&self, tx: &mut Transaction<'_, S>, sql: &str) -> Result<usize, RowError> {
        let columns = [self.position_id.bind(), self.discount.bind()];
        run_bound(tx, sql, &columns)
    }
}
