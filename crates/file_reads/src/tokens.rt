//! The table `tokens`.

ghost use Rattle.file_rows.specs.Rows.{token_row};
ghost use Rattle.file_rows.specs.Fit.{IsFitToken};
ghost use Rattle.file_reads.specs.Texts.{tokens_text};

use crate::columns::Columns;
use crate::loaded::Loaded;
use file_rows::Token;
use file_schema::RowError;
use sqlite::Row;
use std::alloc::Global;

impl Loaded for Token {
    ghost as_row = { token_row };

    ghost fits = { IsFitToken };

    ghost text = { tokens_text };

    ghost tree = { 22 };

    ghost since = { 1 };

    #[tactic(auto, using(crate::proofs::TokensLemmas::select_since, crate::proofs::TokensLemmas::reads_only, crate::proofs::TokensLemmas::alone_since))]
    fn statement() -> &'static str {
        "SELECT id, digest FROM tokens ORDER BY id"
    }

    fn read(alloc: Global, row: &Row) -> Result<Token, RowError> {
        match <(u64, ([u8; 32], ()))>::read_from(alloc, row, 0) {
            Ok((id, others)) => {
                let digest = others.0;
                Ok(Token { id, digest })
            }
            Err(error) => Err(error),
        }
    }
}
