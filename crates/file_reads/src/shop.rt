//! The table `shop`.

ghost use Rattle.file_rows.specs.Rows.{shop_row};
ghost use Rattle.file_rows.specs.Fit.{IsFitShop};
ghost use Rattle.file_reads.specs.Texts.{shop_text};

use crate::columns::Columns;
use crate::loaded::Loaded;
use file_rows::ShopRow;
use file_schema::RowError;
use model_rows::NextIds;
use sqlite::Row;
use std::alloc::Global;

impl Loaded for ShopRow {
    ghost as_row = { shop_row };

    ghost fits = { IsFitShop };

    ghost text = { shop_text };

    ghost tree = { 0 };

    ghost since = { 1 };

    #[tactic(auto, using(crate::proofs::ShopLemmas::select_since, crate::proofs::ShopLemmas::reads_only, crate::proofs::ShopLemmas::alone_since))]
    fn statement() -> &'static str {
        "SELECT id, version, organizer, event, moment, next_item, next_variation, next_quota, next_voucher, next_cart, next_order, next_position, next_waiting, next_list, next_checkin, next_token FROM shop ORDER BY id"
    }

    fn read(alloc: Global, row: &Row) -> Result<ShopRow, RowError> {
        match Columns::read_from(alloc, row, 0) {
            Ok((id, (version, (organizer, (event, (moment, middle)))))) => {
                let id: u64 = id;
                if id != 1 {
                    return Err(RowError::Damaged);
                }
                let (
                    next_item,
                    (next_variation, (next_quota, (next_voucher, (next_cart, others)))),
                ) = middle;
                let (
                    next_order,
                    (next_position, (next_waiting, (next_list, (next_checkin, (next_token, ()))))),
                ) = others;
                Ok(ShopRow {
                    version,
                    organizer,
                    event,
                    moment,
                    next: NextIds {
                        item: next_item,
                        variation: next_variation,
                        quota: next_quota,
                        voucher: next_voucher,
                        cart: next_cart,
                        order: next_order,
                        position: next_position,
                        waiting: next_waiting,
                        list: next_list,
                        checkin: next_checkin,
                    },
                    next_token,
                })
            }
            Err(error) => Err(error),
        }
    }
}
