//! The table `voucher_budget`.

ghost use Rattle.file_rows.specs.Rows.{budget_row};
ghost use Rattle.file_rows.specs.Changes.{with_budget, without_budget};

use crate::bound::run_bound;
use crate::stored::{Statements, Stored};
use file_rows::{BudgetRow, Column};
use file_schema::RowError;
use sqlite::{Alter, Transaction};

impl Stored for BudgetRow {
    ghost key = { λ r. r.voucher_id };

    ghost as_row = { budget_row };

    ghost with_row = { with_budget };

    ghost without_row = { without_budget };

    #[tactic(auto, using(crate::proofs::BudgetsLemmas::statements_are))]
    fn statements() -> Statements {
        Statements {
            insert: "INSERT INTO voucher_budget (voucher_id, budget) VALUES (?1, ?2)",
            update: "UPDATE voucher_budget SET budget = ?2 WHERE voucher_id = ?1",
            remove: "DELETE FROM voucher_budget WHERE voucher_id = ?1",
        }
    }

    #[tactic(auto, using(crate::proofs::BoundLemmas::runs_with))]
    fn run<S: Alter>(&self, tx: &mut Transaction<'_, S>, sql: &str) -> Result<usize, RowError> {
        let columns = [self.voucher_id.bind(), self.budget.bind()];
        run_bound(tx, sql, &columns)
    }
}
