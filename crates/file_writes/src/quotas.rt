//! The table `quotas`.

ghost use Rattle.file_rows.specs.Rows.{quota_row};
ghost use Rattle.file_rows.specs.Changes.{head_of_quota, with_quota, without_quota};

use crate::bound::run_bound;
use crate::stored::{Statements, Stored};
use file_rows::Column;
use file_schema::RowError;
use model_catalogue::Quota;
use sqlite::{Alter, Transaction};

impl Stored for Quota {
    ghost key = { λ r. r.id };

    ghost as_row = { λ w. quota_row (head_of_quota w) };

    ghost with_row = { with_quota };

    ghost without_row = { without_quota };

    #[tactic(auto, using(crate::proofs::QuotasLemmas::statements_are))]
    fn statements() -> Statements {
        Statements {
            insert: "INSERT INTO quotas (id, name, size) VALUES (?1, ?2, ?3)",
            update: "UPDATE quotas SET name = ?2, size = ?3 WHERE id = ?1",
            remove: "DELETE FROM quotas WHERE id = ?1",
        }
    }

    #[tactic(auto, using(crate::proofs::BoundLemmas::runs_with))]
    fn run<S: Alter>(&self, tx: &mut Transaction<'_, S>, sql: &str) -> Result<usize, RowError> {
        let columns = [self.id.bind(), self.name.bind(), self.size.bind()];
        run_bound(tx, sql, &columns)
    }
}
