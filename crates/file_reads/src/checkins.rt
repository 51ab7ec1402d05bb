//! The table `checkins`.

ghost use Rattle.file_rows.specs.Rows.{checkin_row};
ghost use Rattle.file_rows.specs.Fit.{IsFitCheckin};
ghost use Rattle.file_reads.specs.Texts.{checkins_text};

use crate::columns::Columns;
use crate::loaded::Loaded;
use file_schema::RowError;
use model_rows::Checkin;
use sqlite::Row;
use std::alloc::Global;

impl Loaded for Checkin {
    ghost as_row = { checkin_row };

    ghost fits = { IsFitCheckin };

    ghost text = { checkins_text };

    ghost tree = { 19 };

    ghost since = { 1 };

    #[tactic(auto, using(crate::proofs::CheckinsLemmas::select_since, crate::proofs::CheckinsLemmas::reads_only, crate::proofs::CheckinsLemmas::alone_since))]
    fn statement() -> &'static str {
        "SELECT id, list_id, position_id, kind, at, nonce FROM checkins ORDER BY id"
    }

    fn read(alloc: Global, row: &Row) -> Result<Checkin, RowError> {
        match Columns::read_from(alloc, row, 0) {
            Ok((id, (list_id, (position_id, (kind, (at, (nonce, ()))))))) => Ok(Checkin {
                id,
                list: list_id,
                position: position_id,
                kind,
                datetime: at,
                nonce,
            }),
            Err(error) => Err(error),
        }
    }
}
