//! The table `order_positions`.

ghost use Rattle.std.specs.Prelude.{◌≡◌, is_some, IfOk, OnOk};
ghost use Rattle.file_schema.specs.Inside.{StaysInside};
ghost use Rattle.base_tables.specs.Tables.{row_at};
ghost use Rattle.file_rows.specs.Rows.{position_row};
ghost use Rattle.file_rows.specs.Changes.{Changes, head_of_position, with_position, without_position};
ghost use Rattle.file_rows.specs.Tables.{Tables, Holds};
ghost use Rattle.file_rows.specs.Written.{WhileInside};

use crate::bound::run_bound;
use crate::stored::{Statements, Stored};
use file_rows::Column;
use file_schema::RowError;
use model_rows::OrderPos;
use sqlite::{Alter, Transaction};

// UPDATE of all columns of a position.
const UPDATE: &str =
    "UPDATE order_positions SET order_id = ?2, positionid = ?3, item_id = ?4, variation_id = ?5, price = ?6, voucher_id = ?7, secret = ?8 WHERE id = ?1";

impl Stored for OrderPos {
    ghost key = { λ r. r.id };

    ghost as_row = { λ w. position_row (head_of_position w) };

    ghost with_row = { with_position };

    ghost without_row = { without_position };

    #[tactic(auto, using(crate::proofs::KeptRows::order_positions_are))]
    fn statements() -> Statements {
        Statements {
            insert: "INSERT INTO order_positions (id, order_id, positionid, item_id, variation_id, price, voucher_id, secret) VALUES (?1, ?2, ?3, ?4, ?5, ?6, ?7, ?8)",
            update: UPDATE,
            remove: "DELETE FROM order_positions WHERE id = ?1",
        }
    }

    #[tactic(auto, using(crate::proofs::BoundLemmas::runs_with))]
    fn run<S: Alter>(&self, tx: &mut Transaction<'_, S>, sql: &str) -> Result<usize, RowError> {
        let columns = [
            self.id.bind(),
            self.order.bind(),
            self.positionid.bind(),
            self.product.item.bind(),
            self.product.variation.bind(),
            self.price.bind(),
            self.voucher.bind(),
            self.secret.bind(),
        ];
        run_bound(tx, sql, &columns)
    }
}

/// Puts the position in the place of the one with its id, and says whether there was one.
pub fn put_position<S: Alter>(tx: &mut Transaction<'_, S>, row: &OrderPos) -> Result<bool, RowError>
    ensures inside { StaysInside S.Store tx.old.conn tx.new.conn }
    ensures written { WhileInside S.Store tx.old tx.new (λ old new. OnOk result
        (Changes (λ t. with_position row.now (without_position row.now.id t)) old new)) }
    ensures told { WhileInside S.Store tx.old tx.new (λ old _. IfOk result (λ stood. (t : Tables)
        → Holds old.now.trees t → stood ≡ is_some (row_at (λ r. r.id) row.now.id t.positions))) }
{
    let count = row.run(tx, UPDATE)?;
    match count {
        0 => {
            row.insert(tx)?;
            Ok(false)
        }
        1 => Ok(true),
        _ => Err(RowError::Store),
    }
}
