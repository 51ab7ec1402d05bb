//! The table `checkins`.

ghost use Rattle.file_rows.specs.Rows.{checkin_row};
ghost use Rattle.file_rows.specs.Changes.{with_checkin, without_checkin};

use crate::bound::run_bound;
use crate::stored::{Statements, Stored};
use file_rows::Column;
use file_schema::RowError;
use model_rows::Checkin;
use sqlite::{Alter, Transaction};

impl Stored for Checkin {
    ghost key = { λ r. r.id };

    ghost as_row = { checkin_row };

    ghost with_row = { with_checkin };

    ghost without_row = { without_checkin };

    #[tactic(auto, using(crate::proofs::CheckinsLemmas::statements_are))]
    fn statements() -> Statements {
        Statements {
            insert: "INSERT INTO checkins (id, list_id, position_id, kind, at, nonce) VALUES (?1, ?2, ?3, ?4, ?5, ?6)",
            update: "UPDATE checkins SET list_id = ?2, position_id = ?3, kind = ?4, at = ?5, nonce = ?6 WHERE id = ?1",
            remove: "DELETE FROM checkins WHERE id = ?1",
        }
    }

    #[tactic(auto, using(crate::proofs::BoundLemmas::runs_with))]
    fn run<S: Alter>(&self, tx: &mut Transaction<'_, S>, sql: &str) -> Result<usize, RowError> {
        let columns = [
            self.id.bind(),
            self.list.bind(),
            self.position.bind(),
            self.kind.bind(),
            self.datetime.bind(),
            self.nonce.bind(),
        ];
        run_bound(tx, sql, &columns)
    }
}
