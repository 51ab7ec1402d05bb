//! The table `kept`.

ghost use Rattle.file_rows.specs.Rows.{kept_row};
ghost use Rattle.file_rows.specs.Fit.{IsFitKept};
ghost use Rattle.file_reads.specs.Texts.{kept_text};

use crate::columns::Columns;
use crate::loaded::Loaded;
use base_values::Response;
use file_rows::KeptRow;
use file_rows::methods::Allow;
use file_schema::RowError;
use model_answers::Kept;
use sqlite::Row;
use std::alloc::Global;

impl Loaded for KeptRow {
    ghost as_row = { kept_row };

    ghost fits = { IsFitKept };

    ghost text = { kept_text };

    ghost tree = { 24 };

    ghost since = { 1 };

    #[tactic(auto, using(crate::proofs::KeptLemmas::select_since, crate::proofs::KeptLemmas::reads_only, crate::proofs::KeptLemmas::alone_since))]
    fn statement() -> &'static str {
        "SELECT rowid, token_id, request_key, first_moment, status, allow, body FROM kept ORDER BY rowid"
    }

    fn read(alloc: Global, row: &Row) -> Result<KeptRow, RowError> {
        match Columns::read_from(alloc, row, 0) {
            Ok((rowid, (token_id, (request_key, (first_moment, others))))) => {
                let (status, (Allow { named: allow }, (body, ()))) = others;
                Ok(KeptRow {
                    rowid,
                    kept: Kept {
                        token: token_id,
                        key: request_key,
                        at: first_moment,
                        response: Response {
                            status,
                            allow,
                            body,
                        },
                    },
                })
            }
            Err(error) => Err(error),
        }
    }
}
