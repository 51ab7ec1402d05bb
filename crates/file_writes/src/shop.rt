//! The table `shop`.

ghost use Rattle.file_rows.specs.Rows.{shop_row};
ghost use Rattle.file_rows.specs.Changes.{with_shop, without_shop};

use crate::bound::run_bound;
use crate::stored::{Statements, Stored};
use file_rows::{Column, ShopRow};
use file_schema::RowError;
use sqlite::{Alter, Transaction};

impl Stored for ShopRow {
    ghost key = { λ r. 1 };

    ghost as_row = { shop_row };

    ghost with_row = { with_shop };

    ghost without_row = { without_shop };

    #[tactic(auto, using(crate::proofs::ShopLemmas::statements_are))]
    fn statements() -> Statements {
        Statements {
            insert: "INSERT INTO shop (id, version, organizer, event, moment, next_item, next_variation, next_quota, next_voucher, next_cart, next_order, next_position, next_waiting, next_list, next_checkin, next_token) VALUES (?1, ?2, ?3, ?4, ?5, ?6, ?7, ?8, ?9, ?10, ?11, ?12, ?13, ?14, ?15, ?16)",
            update: "UPDATE shop SET version = ?2, organizer = ?3, event = ?4, moment = ?5, next_item = ?6, next_variation = ?7, next_quota = ?8, next_voucher = ?9, next_cart = ?10, next_order = ?11, next_position = ?12, next_waiting = ?13, next_list = ?14, next_checkin = ?15, next_token = ?16 WHERE id = ?1",
            remove: "DELETE FROM shop WHERE id = ?1",
        }
    }

    #[tactic(auto, using(crate::proofs::BoundLemmas::runs_with))]
    fn run<S: Alter>(&self, tx: &mut Transaction<'_, S>, sql: &str) -> Result<usize, RowError> {
        let columns = [
            1u64.bind(),
            self.version.bind(),
            self.organizer.bind(),
            self.event.bind(),
            self.moment.bind(),
            self.next.item.bind(),
            self.next.variation.bind(),
            self.next.quota.bind(),
            self.next.voucher.bind(),
            self.next.cart.bind(),
            self.next.order.bind(),
            self.next.position.bind(),
            self.next.waiting.bind(),
            self.next.list.bind(),
            self.next.checkin.bind(),
            self.next_token.bind(),
        ];
        run_bound(tx, sql, &columns)
    }
}
