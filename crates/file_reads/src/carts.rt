//! The table `cart_positions`.

ghost use Rattle.file_rows.specs.Rows.{cart_row};
ghost use Rattle.file_rows.specs.Fit.{IsFitCart};
ghost use Rattle.file_reads.specs.Texts.{carts_text};

use crate::columns::Columns;
use crate::loaded::Loaded;
use file_schema::RowError;
use model_catalogue::Product;
use model_rows::CartPos;
use sqlite::Row;
use std::alloc::Global;

impl Loaded for CartPos {
    ghost as_row = { cart_row };

    ghost fits = { IsFitCart };

    ghost text = { carts_text };

    ghost tree = { 10 };

    ghost since = { 1 };

    #[tactic(auto, using(crate::proofs::CartsLemmas::select_since, crate::proofs::CartsLemmas::reads_only, crate::proofs::CartsLemmas::alone_since))]
    fn statement() -> &'static str {
        "SELECT id, cart_id, item_id, variation_id, price, made_at, expires, voucher_id FROM cart_positions ORDER BY id"
    }

    fn read(alloc: Global, row: &Row) -> Result<CartPos, RowError> {
        match Columns::read_from(alloc, row, 0) {
            Ok((id, (cart_id, (item_id, (variation_id, others))))) => {
                let (price, (made_at, (expires, (voucher_id, ())))) = others;
                Ok(CartPos {
                    id,
                    cart_id,
                    product: Product {
                        item: item_id,
                        variation: variation_id,
                    },
                    price,
                    made_at,
                    expires,
                    voucher: voucher_id,
                })
            }
            Err(error) => Err(error),
        }
    }
}
