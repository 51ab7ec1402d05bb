//! The table `quota_exited`.

ghost use Rattle.file_rows.specs.Rows.{exit_row};
ghost use Rattle.file_rows.specs.Changes.{with_exit, without_exit};

use crate::bound::run_bound;
use crate::stored::{Statements, Stored};
use file_rows::{Column, ExitRow};
use file_schema::RowError;
use sqlite::{Alter, Transaction};

impl Stored for ExitRow {
    ghost key = { λ r. r.quota };

    ghost as_row = { exit_row };

    ghost with_row = { with_exit };

    ghost without_row = { without_exit };

    #[tactic(auto, using(crate::proofs::ExitsLemmas::statements_are))]
    fn statements() -> Statements {
        Statements {
            insert: "INSERT INTO quota_exited (quota_id, exited) VALUES (?1, ?2)",
            update: "UPDATE quota_exited SET exited = ?2 WHERE quota_id = ?1",
            remove: "DELETE FROM quota_exited WHERE quota_id = ?1",
        }
    }

    #[tactic(auto, using(crate::proofs::BoundLemmas::runs_with))]
    fn run<S: Alter>(&self, tx: &mut Transaction<'_, S>, sql: &str) -> Result<usize, RowError> {
        let columns = [self.quota.bind(), self.exited.bind()];
        run_bound(tx, sql, &columns)
    }
}
