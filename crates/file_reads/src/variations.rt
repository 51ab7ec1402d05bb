//! The table `variations`.

ghost use Rattle.file_rows.specs.Rows.{variation_row};
ghost use Rattle.file_rows.specs.Fit.{IsFitVariation};
ghost use Rattle.file_reads.specs.Texts.{variations_text};

use crate::columns::Columns;
use crate::loaded::Loaded;
use file_schema::RowError;
use model_catalogue::Variation;
use sqlite::Row;
use std::alloc::Global;

impl Loaded for Variation {
    ghost as_row = { variation_row };

    ghost fits = { IsFitVariation };

    ghost text = { variations_text };

    ghost tree = { 2 };

    ghost since = { 1 };

    #[tactic(auto, using(crate::proofs::VariationsLemmas::select_since, crate::proofs::VariationsLemmas::reads_only, crate::proofs::VariationsLemmas::alone_since))]
    fn statement() -> &'static str {
        "SELECT id, item_id, name, default_price, active FROM variations ORDER BY id"
    }

    fn read(alloc: Global, row: &Row) -> Result<Variation, RowError> {
        match Columns::read_from(alloc, row, 0) {
            Ok((id, (item_id, (name, (default_price, (active, ())))))) => Ok(Variation {
                id,
                item: item_id,
                name,
                default_price,
                active,
            }),
            Err(error) => Err(error),
        }
    }
}
