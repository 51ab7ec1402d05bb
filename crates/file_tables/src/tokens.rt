//! Tokens.

ghost use Rattle.std.specs.Prelude.{◌≡◌, ℕ, List, Option, IfOk};
ghost use Rattle.file_schema.specs.Clean.{WhileClean, LeavesNoMore};
ghost use Rattle.file_schema.specs.Outcomes.{OnOkWhileClean, WasOpen};
ghost use Rattle.file_reads.specs.Lookups.{has_digest};
ghost use Rattle.file_schema.specs.Whole.{IsStill};
ghost use Rattle.file_tables.specs.Held.{AreAllOfShop, KnowsTokens};

use file_reads::find_token;
use file_rows::Token;
use file_schema::{Lookup, RowError, look_up};
use sqlite::{Alter, Connection, Transaction};
use std::alloc::Global;

// The tokens of a digest.
#[derive(Drop)]
struct OfDigest<'a> {
    digest: &'a [u8; 32],
}

impl Lookup<Token> for OfDigest<'_> {
    ghost finds = { λ what. AreAllOfShop (λ t. t.tokens) (has_digest what.digest.now) };

    fn look<S: Alter>(
        &self,
        alloc: Global,
        tx: &mut Transaction<'_, S>,
    ) -> Result<Vec<Token>, RowError> {
        find_token(alloc, tx, self.digest)
    }
}

/// The number of the token with this SHA-256 digest, if it is known. Nothing changes. Refusals: 6, 60, 62, and 63 where a
/// transaction is open, or two tokens have the digest.
pub(crate) fn find_number<S: Alter>(
    alloc: Global,
    connection: &mut Connection<S>,
    digest: &[u8; 32],
) -> Result<Option<u64>, RowError>
    ensures found { WhileClean S.Store connection.old connection.new (λ old _.
        (tokens : List ℕ → Option ℕ) → KnowsTokens old.now tokens
        → IfOk result (λ number. number ≡ tokens digest.now)) }
    ensures open { OnOkWhileClean S.Store connection.old connection.new WasOpen result }
    ensures still { WhileClean S.Store connection.old connection.new IsStill }
    ensures crash { LeavesNoMore S.Store connection.old connection.new }
{
    let mut rows = look_up(alloc, connection, &OfDigest { digest })?;
    let Some(token) = rows.pop() else {
        return Ok(None);
    };
    if !rows.is_empty() {
        return Err(RowError::Store);
    }
    Ok(Some(token.id))
}
