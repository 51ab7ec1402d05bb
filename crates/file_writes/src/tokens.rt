//! The table `tokens`.

ghost use Rattle.file_rows.specs.Rows.{token_row};
ghost use Rattle.file_rows.specs.Changes.{with_token, without_token};

use crate::bound::run_bound;
use crate::stored::{Statements, Stored};
use file_rows::{Column, Token};
use file_schema::RowError;
use sqlite::{Alter, Transaction};

impl Stored for Token {
    ghost key = { λ r. r.id };

    ghost as_row = { token_row };

    ghost with_row = { with_token };

    ghost without_row = { without_token };

    #[tactic(auto, using(crate::proofs::TokensLemmas::statements_are))]
    fn statements() -> Statements {
        Statements {
            insert: "INSERT INTO tokens (id, digest) VALUES (?1, ?2)",
            update: "UPDATE tokens SET digest = ?2 WHERE id = ?1",
            remove: "DELETE FROM tokens WHERE id = ?1",
        }
    }

    #[tactic(auto, using(crate::proofs::BoundLemmas::runs_with))]
    fn run<S: Alter>(&self, tx: &mut Transaction<'_, S>, sql: &str) -> Result<usize, RowError> {
        let columns = [self.id.bind(), self.digest.bind()];
        run_bound(tx, sql, &columns)
    }
}
