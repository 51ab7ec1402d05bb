//! What is written.

ghost use Rattle.sqlite_schema.specs.declared.schema.Schema.{Schema};
ghost use Rattle.sqlite.specs.Effect.{Database};
ghost use Rattle.sqlite.specs.Held.{state};
ghost use Rattle.sqlite.specs.State.{IsLive, IsUnchanged};
ghost use Rattle.file_schema.specs.Inside.{StaysInside, WritesOver};
ghost use Rattle.file_schema.specs.Outcomes.{OnOkWhileClean, WasOpen};
ghost use Rattle.file_schema.specs.Whole.{WritesWhole};

use crate::RowError;
use sqlite::{Alter, Connection, Transaction};

/// What is written in one transaction, and what that answers.
pub trait Writing<T> {
    // the schema over which it is written
    ghost over: { Self → Schema };

    // what it makes of a database over that schema
    ghost turns: { Self → T → Database → Database → Type 0 };

    /// Writes it, inside a transaction. The trees list the schema, as they did.
    fn write<S: Alter>(&self, tx: &mut Transaction<'_, S>) -> Result<T, RowError>
        ensures inside { StaysInside S.Store tx.old.conn tx.new.conn }
        ensures written { WritesOver S.Store tx.old tx.new (over self.now)
            (turns self.now) result };
}

/// What a connection promises: while it is open its trees list the schema that it sees. It does nothing.
pub fn schema_known<S: Alter>(connection: &Connection<S>)
    ensures { IsLive (state S.Store connection.now) }
{
    let _ = connection.schema();
}

// Whether the connection is open, which its other calls don't tell.
pub(crate) fn test_open<S: Alter>(tx: &mut Transaction<'_, S>) -> Result<(), RowError>
    ensures inside { StaysInside S.Store tx.old.conn tx.new.conn }
    ensures open { OnOkWhileClean S.Store tx.old.conn.now tx.new.conn.now IsUnchanged result }
{
    match tx.prepare("SELECT 1") {
        Ok(_) => Ok(()),
        Err(error) => Err(RowError::of(error)),
    }
}

// Writes it into an open transaction.
fn write_open<S: Alter, T: Drop, W: Writing<T>>(
    tx: &mut Transaction<'_, S>,
    what: &W,
) -> Result<T, RowError>
    ensures inside { StaysInside S.Store tx.old.conn tx.new.conn }
    ensures written { WritesOver S.Store tx.old tx.new (W.over what.now) (W.turns what.now) result }
    ensures open { OnOkWhileClean S.Store tx.old.conn.now tx.new.conn.now WasOpen result }
{
    test_open(tx)?;
    what.write(tx)
}

/// Writes it in a transaction of its own, all of it or nothing. Refusals: those of the writing, 6, and 63 where a
/// transaction is open already, the connection is shut or the store fails.
pub fn write_whole<S: Alter, T: Drop, W: Writing<T>>(
    connection: &mut Connection<S>,
    what: &W,
) -> Result<T, RowError>
    ensures { WritesWhole S.Store connection.old connection.new
        (W.over what.now) (W.turns what.now) result }
{
    if !connection.is_autocommit() {
        return Err(RowError::Store);
    }
    schema_known(connection);
    let mut tx = connection.transaction();
    let answer = write_open(&mut tx, what)?;
    match tx.commit() {
        Ok(()) => Ok(answer),
        Err(error) => Err(RowError::of(error)),
    }
}
