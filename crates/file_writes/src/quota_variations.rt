//! The table `quota_variations`.

ghost use Rattle.file_rows.specs.Rows.{quota_variation_row};
ghost use Rattle.file_rows.specs.Changes.{with_quota_variation, without_quota_variation};

use crate::bound::run_bound;
use crate::stored::{Statements, Stored};
use file_rows::{Column, QuotaVariation};
use file_schema::RowError;
use sqlite::{Alter, Transaction};

impl Stored for QuotaVariation {
    ghost key = { λ r. r.rowid };

    ghost as_row = { quota_variation_row };

    ghost with_row = { with_quota_variation };

    ghost without_row = { without_quota_variation };

    #[tactic(auto, using(crate::proofs::QuotaVariationsLemmas::statements_are))]
    fn statements() -> Statements {
        Statements {
            insert: "INSERT INTO quota_variations (rowid, quota_id, variation_id) VALUES (?1, ?2, ?3)",
            update: "UPDATE quota_variations SET quota_id = ?2, variation_id = ?3 WHERE rowid = ?1",
            remove: "DELETE FROM quota_variations WHERE rowid = ?1",
        }
    }

    #[tactic(auto, using(crate::proofs::BoundLemmas::runs_with))]
    fn run<S: Alter>(&self, tx: &mut Transaction<'_, S>, sql: &str) -> Result<usize, RowError> {
        let columns = [self.rowid.bind(), self.quota.bind(), self.variation.bind()];
        run_bound(tx, sql, &columns)
    }
}
