//! The table `items`.

ghost use Rattle.file_rows.specs.Rows.{item_row};
ghost use Rattle.file_rows.specs.Changes.{with_item, without_item};

use crate::bound::run_bound;
use crate::stored::{Statements, Stored};
use file_rows::Column;
use file_schema::RowError;
use model_catalogue::Item;
use sqlite::{Alter, Transaction};

impl Stored for Item {
    ghost key = { λ r. r.id };

    ghost as_row = { item_row };

    ghost with_row = { with_item };

    ghost without_row = { without_item };

    #[tactic(auto, using(crate::proofs::ItemsLemmas::statements_are))]
    fn statements() -> Statements {
        Statements {
            insert: "INSERT INTO items (id, name, default_price, active, varied) VALUES (?1, ?2, ?3, ?4, ?5)",
            update: "UPDATE items SET name = ?2, default_price = ?3, active = ?4, varied = ?5 WHERE id = ?1",
            remove: "DELETE FROM items WHERE id = ?1",
        }
    }

    #[tactic(auto, using(crate::proofs::BoundLemmas::runs_with))]
    fn run<S: Alter>(&self, tx: &mut Transaction<'_, S>, sql: &str) -> Result<usize, RowError> {
        let columns = [
            self.id.bind(),
            self.name.bind(),
            self.default_price.bind(),
            self.active.bind(),
            self.varied.bind(),
        ];
        run_bound(tx, sql, &columns)
    }
}
