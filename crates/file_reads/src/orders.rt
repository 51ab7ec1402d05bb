//! The table `orders`.

ghost use Rattle.file_rows.specs.Rows.{order_row};
ghost use Rattle.file_rows.specs.Fit.{IsFitOrder};
ghost use Rattle.file_reads.specs.Texts.{orders_text};

use crate::columns::Columns;
use crate::loaded::Loaded;
use file_schema::RowError;
use model_rows::Order;
use sqlite::Row;
use std::alloc::Global;

impl Loaded for Order {
    ghost as_row = { order_row };

    ghost fits = { IsFitOrder };

    ghost text = { orders_text };

    ghost tree = { 11 };

    ghost since = { 1 };

    #[tactic(auto, using(crate::proofs::OrdersLemmas::select_since, crate::proofs::OrdersLemmas::reads_only, crate::proofs::OrdersLemmas::alone_since))]
    fn statement() -> &'static str {
        "SELECT id, email, status, made_at, expires FROM orders ORDER BY id"
    }

    fn read(alloc: Global, row: &Row) -> Result<Order, RowError> {
        match Columns::read_from(alloc, row, 0) {
            Ok((id, (email, (status, (made_at, (expires, ())))))) => Ok(Order {
                id,
                email,
                status,
                made_at,
                expires,
            }),
            Err(error) => Err(error),
        }
    }
}
