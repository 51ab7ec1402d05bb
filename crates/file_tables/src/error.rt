//! Why a file wasn't made or opened, or got no token.

ghost use Rattle.std.specs.Prelude.{◌≡◌};
ghost use Rattle.file_tables.specs.Refusals.{making_refusal, token_refusal};
ghost use Rattle.file_tables.specs.declared.error.CreateError.TheVariants.{NotBlank};
ghost use Rattle.file_tables.specs.declared.error.TokenError.TheVariants.{Full};

use file_schema::RowError;
use sqlite::{Alter, Connection};

/// A connection that is handed back, and why it was.
#[derive(Drop)]
pub struct HandedBack<S: Alter, E: Drop> {
    pub connection: Connection<S>,
    pub error: E,
}

/// Why a file wasn't made.
#[derive(Clone, Copy, PartialEq, Eq, Drop)]
pub enum CreateError {
    /// 60: the database has a table already.
    NotBlank,
    /// 6: out of memory.
    Memory,
    /// 63: the store refused a call or failed.
    Store,
}

impl CreateError {
    /// Why a file isn't made where this happens to its rows.
    pub(crate) fn of(error: RowError) -> Self
        ensures told { result ≡ making_refusal error }
        ensures blank { ¬ (result ≡ NotBlank) }
    {
        match error {
            RowError::Memory => CreateError::Memory,
            RowError::Foreign | RowError::Damaged | RowError::Store => CreateError::Store,
        }
    }
}

/// Why a token wasn't added.
#[derive(Clone, Copy, PartialEq, Eq, Drop)]
pub enum TokenError {
    /// 16: the table of tokens is full.
    Full,
    /// 6: out of memory.
    Memory,
    /// 63: the store refused a call or failed, or shows of the tokens what can't be read.
    Store,
}

impl TokenError {
    /// Why a token isn't added where this happens to its rows.
    pub(crate) fn of(error: RowError) -> Self
        ensures told { result ≡ token_refusal error }
        ensures room { ¬ (result ≡ Full) }
    {
        match error {
            RowError::Memory => TokenError::Memory,
            RowError::Foreign | RowError::Damaged | RowError::Store => TokenError::Store,
        }
    }
}
