//! The table `position_discount`.

ghost use Rattle.file_rows.specs.Rows.{discount_row};
ghost use Rattle.file_rows.specs.Fit.{IsFitDiscount};
ghost use Rattle.file_reads.specs.Texts.{discounts_text};

use crate::columns::Columns;
use crate::loaded::Loaded;
use file_rows::DiscountRow;
use file_schema::RowError;
use sqlite::Row;
use std::alloc::Global;

impl Loaded for DiscountRow {
    ghost as_row = { discount_row };

    ghost fits = { IsFitDiscount };

    ghost text = { discounts_text };

    ghost tree = { 31 };

    ghost since = { 3 };

    #[tactic(auto, using(crate::proofs::DiscountsLemmas::select_since, crate::proofs::DiscountsLemmas::reads_only, crate::proofs::DiscountsLemmas::alone_since))]
    fn statement() -> &'static str {
        "SELECT position_id, discount FROM position_discount ORDER BY position_id"
    }

    fn read(alloc: Global, row: &Row) -> Result<DiscountRow, RowError> {
        match Columns::read_from(alloc, row, 0) {
            Ok((position_id, (discount, ()))) => Ok(DiscountRow {
                position_id,
                discount,
            }),
            Err(error) => Err(error),
        }
    }
}
