//! The table `variations`.

ghost use Rattle.file_rows.specs.Rows.{variation_row};
ghost use Rattle.file_rows.specs.Changes.{with_variation, without_variation};

use crate::bound::run_bound;
use crate::stored::{Statements, Stored};
use file_rows::Column;
use file_schema::RowError;
use model_catalogue::Variation;
use sqlite::{Alter, Transaction};

impl Stored for Variation {
    ghost key = { λ r. r.id };

    ghost as_row = { variation_row };

    ghost with_row = { with_variation };

    ghost without_row = { without_variation };

    #[tactic(auto, using(crate::proofs::VariationsLemmas::statements_are))]
    fn statements() -> Statements {
        Statements {
            insert: "INSERT INTO variations (id, item_id, name, default_price, active) VALUES (?1, ?2, ?3, ?4, ?5)",
            update: "UPDATE variations SET item_id = ?2, name = ?3, default_price = ?4, active = ?5 WHERE id = ?1",
            remove: "DELETE FROM variations WHERE id = ?1",
        }
    }

    #[tactic(auto, using(crate::proofs::BoundLemmas::runs_with))]
    fn run<S: Alter>(&self, tx: &mut Transaction<'_, S>, sql: &str) -> Result<usize, RowError> {
        let columns = [
            self.id.bind(),
            self.item.bind(),
            self.name.bind(),
            self.default_price.bind(),
            self.active.bind(),
        ];
        run_bound(tx, sql, &columns)
    }
}
