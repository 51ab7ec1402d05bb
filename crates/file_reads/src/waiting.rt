//! The table `waiting`.

ghost use Rattle.file_rows.specs.Rows.{waiting_row};
ghost use Rattle.file_rows.specs.Fit.{IsFitWaiting};
ghost use Rattle.file_reads.specs.Texts.{waiting_text};

use crate::columns::Columns;
use crate::loaded::Loaded;
use file_schema::RowError;
use model_catalogue::Product;
use model_rows::Waiting;
use sqlite::Row;
use std::alloc::Global;

impl Loaded for Waiting {
    ghost as_row = { waiting_row };

    ghost fits = { IsFitWaiting };

    ghost text = { waiting_text };

    ghost tree = { 15 };

    ghost since = { 1 };

    #[tactic(auto, using(crate::proofs::WaitingLemmas::select_since, crate::proofs::WaitingLemmas::reads_only, crate::proofs::WaitingLemmas::alone_since))]
    fn statement() -> &'static str {
        "SELECT id, email, item_id, variation_id, priority, created, voucher_id FROM waiting ORDER BY id"
    }

    fn read(alloc: Global, row: &Row) -> Result<Waiting, RowError> {
        match Columns::read_from(alloc, row, 0) {
            Ok((id, (email, (item_id, (variation_id, others))))) => {
                let (priority, (created, (voucher_id, ()))) = others;
                Ok(Waiting {
                    id,
                    email,
                    product: Product {
                        item: item_id,
                        variation: variation_id,
                    },
                    priority,
                    created,
                    voucher: voucher_id,
                })
            }
            Err(error) => Err(error),
        }
    }
}
