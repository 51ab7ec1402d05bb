//! The table `order_positions`.

ghost use Rattle.file_rows.specs.Rows.{position_row};
ghost use Rattle.file_rows.specs.Fit.{IsFitPosition};
ghost use Rattle.file_reads.specs.Texts.{positions_text};

use crate::columns::Columns;
use crate::loaded::Loaded;
use file_rows::PositionRow;
use file_schema::RowError;
use model_catalogue::Product;
use sqlite::Row;
use std::alloc::Global;

impl Loaded for PositionRow {
    ghost as_row = { position_row };

    ghost fits = { IsFitPosition };

    ghost text = { positions_text };

    ghost tree = { 12 };

    ghost since = { 1 };

    #[tactic(auto, using(crate::proofs::SelectLemmas::order_positions_selected))]
    fn statement() -> &'static str {
        "SELECT id, order_id, positionid, item_id, variation_id, price, voucher_id, secret FROM order_positions ORDER BY id"
    }

    fn read(alloc: Global, row: &Row) -> Result<PositionRow, RowError> {
        match Columns::read_from(alloc, row, 0) {
            Ok((id, (order_id, (positionid, (item_id, others))))) => {
                let (variation_id, (price, (voucher_id, (secret, ())))) = others;
                Ok(PositionRow {
                    id,
                    order: order_id,
                    positionid,
                    product: Product {
                        item: item_id,
                        variation: variation_id,
                    },
                    price,
                    voucher: voucher_id,
                    secret,
                })
            }
            Err(error) => Err(error),
        }
    }
}
