//! The table `orders`.

ghost use Rattle.file_rows.specs.Rows.{order_row};
ghost use Rattle.file_rows.specs.Changes.{with_order, without_order};

use crate::bound::run_bound;
use crate::stored::{Statements, Stored};
use file_rows::Column;
use file_schema::RowError;
use model_rows::Order;
use sqlite::{Alter, Transaction};

impl Stored for Order {
    ghost key = { λ r. r.id };

    ghost as_row = { order_row };

    ghost with_row = { with_order };

    ghost without_row = { without_order };

    #[tactic(auto, using(crate::proofs::OrdersLemmas::statements_are))]
    fn statements() -> Statements {
        Statements {
            insert: "INSERT INTO orders (id, email, status, made_at, expires) VALUES (?1, ?2, ?3, ?4, ?5)",
            update: "UPDATE orders SET email = ?2, status = ?3, made_at = ?4, expires = ?5 WHERE id = ?1",
            remove: "DELETE FROM orders WHERE id = ?1",
        }
    }

    #[tactic(auto, using(crate::proofs::BoundLemmas::runs_with))]
    fn run<S: Alter>(&self, tx: &mut Transaction<'_, S>, sql: &str) -> Result<usize, RowError> {
        let columns = [
            self.id.bind(),
            self.email.bind(),
            self.status.bind(),
            self.made_at.bind(),
            self.expires.bind(),
        ];
        run_bound(tx, sql, &columns)
    }
}
