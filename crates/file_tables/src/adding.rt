//! Tokens are added.

ghost use Rattle.std.specs.Prelude.{◌≡◌, ◌<◌, None, Err, IfOk, OnOk, OnErr};
ghost use Rattle.file_schema.specs.Clean.{LeavesNoMore};
ghost use Rattle.file_schema.specs.Tables.{schema};
ghost use Rattle.file_rows.specs.Fit.{IsDigest};
ghost use Rattle.file_schema.specs.Whole.{WritesAll, WritesNone};
ghost use Rattle.file_tables.specs.Adding.{AddsToken};
ghost use Rattle.file_tables.specs.declared.error.TokenError.TheVariants.{Full};
ghost use Rattle.file_tables.specs.Whole.{LeavesMade};
ghost use Rattle.file_tables.specs.Tokens.{most_tokens, IsNumbered, token_raised, AddsNext};

use crate::add::put_token;
use crate::error::TokenError;
use crate::sql::SqlTables;
use crate::tokens::find_number;
use file_rows::Token;
use sqlite::Alter;

const MOST_TOKENS: u64 = 1_000_000;

// Adds a token with a digest that has none.
fn add_next<S: Alter>(tables: &mut SqlTables<S>, digest: &[u8; 32]) -> Result<u64, TokenError>
    ensures number { IfOk result (IsNumbered None tables.old.head.next_token) }
    ensures full { result ≡ Err Full → most_tokens < tables.old.head.next_token }
    ensures full_crash { most_tokens < tables.old.head.next_token
        → LeavesNoMore S.Store tables.old.connection tables.new.connection }
    ensures digest { IsDigest digest.now }
    ensures head { OnOk result (tables.new.head ≡ token_raised tables.old.head) }
    ensures head_none { OnErr result (tables.new.head ≡ tables.old.head) }
    ensures next_row { tables.new.next_row ≡ tables.old.next_row }
    ensures all { WritesAll S.Store tables.old.connection tables.new.connection schema
        (λ _. AddsNext tables.old.head digest.now) result }
    ensures none { WritesNone S.Store tables.old.connection tables.new.connection schema result }
    ensures crash { LeavesMade S.Store tables.old.connection tables.new.connection schema
        (AddsNext tables.old.head digest.now) }
{
    let bytes = *digest;
    let id = tables.head.next_token;
    if id > MOST_TOKENS {
        return Err(TokenError::Full);
    }
    let token = Token { id, digest: bytes };
    tables.head.next_token = id + 1;
    match put_token(&mut tables.connection, &tables.head, &token) {
        Ok(()) => Ok(id),
        Err(error) => {
            tables.head.next_token = id;
            Err(TokenError::of(error))
        }
    }
}

/// Adds a token by its SHA-256 digest, and answers its number: a digest that stands keeps its number, and nothing changes, in a crash
/// neither; any other gets the next one, from 1 on. The office and the kept answers stay as they are. All of it is done or nothing, in a
/// crash too. Refusals: 16 where the digest is new and the shop has 1,000,000 tokens, 6, and 63 where a transaction is open, the
/// connection is shut, the store fails, or what it shows of the tokens can't be read.
pub fn add_token<S: Alter>(tables: &mut SqlTables<S>, digest: &[u8; 32]) -> Result<u64, TokenError>
    ensures { AddsToken S.Store tables.old tables.new digest.now result }
{
    match find_number(tables.alloc, &mut tables.connection, digest) {
        Ok(Some(number)) => Ok(number),
        Ok(None) => add_next(tables, digest),
        Err(error) => Err(TokenError::of(error)),
    }
}
