//! The table `quota_release`, whose only column is its key: an UPDATE leaves the row as it is, and says whether it stands.

ghost use Rattle.file_rows.specs.Rows.{release_row};
ghost use Rattle.file_rows.specs.Changes.{with_release, without_release};

use crate::bound::run_bound;
use crate::stored::{Statements, Stored};
use file_rows::{Column, ReleaseRow};
use file_schema::RowError;
use sqlite::{Alter, Transaction};

impl Stored for ReleaseRow {
    ghost key = { λ r. r.quota };

    ghost as_row = { release_row };

    ghost with_row = { with_release };

    ghost without_row = { without_release };

    #[tactic(auto, using(crate::proofs::ReleasesLemmas::statements_are))]
    fn statements() -> Statements {
        Statements {
            insert: "INSERT INTO quota_release (quota_id) VALUES (?1)",
            update: "UPDATE quota_release SET quota_id = quota_id WHERE quota_id = ?1",
            remove: "DELETE FROM quota_release WHERE quota_id = ?1",
        }
    }

    #[tactic(auto, using(crate::proofs::BoundLemmas::runs_with))]
    fn run<S: Alter>(&self, tx: &mut Transaction<'_, S>, sql: &str) -> Result<usize, RowError> {
        let columns = [self.quota.bind()];
        run_bound(tx, sql, &columns)
    }
}
