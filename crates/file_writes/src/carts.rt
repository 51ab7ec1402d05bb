//! The table `cart_positions`.

ghost use Rattle.file_rows.specs.Rows.{cart_row};
ghost use Rattle.file_rows.specs.Changes.{with_cart, without_cart};

use crate::bound::run_bound;
use crate::stored::{Statements, Stored};
use file_rows::Column;
use file_schema::RowError;
use model_rows::CartPos;
use sqlite::{Alter, Transaction};

impl Stored for CartPos {
    ghost key = { λ r. r.id };

    ghost as_row = { cart_row };

    ghost with_row = { with_cart };

    ghost without_row = { without_cart };

    #[tactic(auto, using(crate::proofs::CartsLemmas::statements_are))]
    fn statements() -> Statements {
        Statements {
            insert: "INSERT INTO cart_positions (id, cart_id, item_id, variation_id, price, made_at, expires, voucher_id) VALUES (?1, ?2, ?3, ?4, ?5, ?6, ?7, ?8)",
            update: "UPDATE cart_positions SET cart_id = ?2, item_id = ?3, variation_id = ?4, price = ?5, made_at = ?6, expires = ?7, voucher_id = ?8 WHERE id = ?1",
            remove: "DELETE FROM cart_positions WHERE id = ?1",
        }
    }

    #[tactic(auto, using(crate::proofs::BoundLemmas::runs_with))]
    fn run<S: Alter>(&self, tx: &mut Transaction<'_, S>, sql: &str) -> Result<usize, RowError> {
        let columns = [
            self.id.bind(),
            self.cart_id.bind(),
            self.product.item.bind(),
            self.product.variation.bind(),
            self.price.bind(),
            self.made_at.bind(),
            self.expires.bind(),
            self.voucher.bind(),
        ];
        run_bound(tx, sql, &columns)
    }
}
