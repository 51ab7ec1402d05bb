//! What is looked up.

ghost use Rattle.std.specs.Prelude.{◌≡◌, List};
ghost use Rattle.sqlite.specs.Effect.{Database};
ghost use Rattle.file_schema.specs.Clean.{WhileClean, LeavesNoMore};
ghost use Rattle.file_schema.specs.Inside.{KeepsCommitInside};
ghost use Rattle.file_schema.specs.Outcomes.{OnOkWhileClean, WasOpen, LooksUp};
ghost use Rattle.file_schema.specs.Whole.{IsStill};

use crate::RowError;
use crate::writing::test_open;
use sqlite::{Alter, Connection, Transaction};
use std::alloc::Global;

/// What is looked up: rows of one kind.
pub trait Lookup<T> {
    // what is to be found in a database
    ghost finds: { Self → Database → List T → Type 0 };

    /// Finds it, inside a transaction.
    fn look<S: Alter>(&self, alloc: Global, tx: &mut Transaction<'_, S>) -> Result<Vec<T>, RowError>
        ensures same { tx.new.conn.ghost_name ≡ tx.old.conn.ghost_name }
        ensures found { LooksUp S.Store tx.old.conn.now tx.new.conn.now (finds self.now) result }
        ensures kept { KeepsCommitInside S.Store tx.old.conn.now tx.new.conn.now }
        ensures crash { LeavesNoMore S.Store tx.old.conn.now tx.new.conn.now };
}

// Finds it, where the connection is open.
fn look_open<S: Alter, T: Drop, L: Lookup<T>>(
    alloc: Global,
    tx: &mut Transaction<'_, S>,
    what: &L,
) -> Result<Vec<T>, RowError>
    ensures same { tx.new.conn.ghost_name ≡ tx.old.conn.ghost_name }
    ensures found { LooksUp S.Store tx.old.conn.now tx.new.conn.now (L.finds what.now) result }
    ensures open { OnOkWhileClean S.Store tx.old.conn.now tx.new.conn.now WasOpen result }
    ensures kept { KeepsCommitInside S.Store tx.old.conn.now tx.new.conn.now }
    ensures crash { LeavesNoMore S.Store tx.old.conn.now tx.new.conn.now }
{
    test_open(tx)?;
    what.look(alloc, tx)
}

/// Finds it in a transaction of its own, which leaves all as it was. Refusals: those of the look-up, and 63 where a
/// transaction is open already or the connection is shut.
pub fn look_up<S: Alter, T: Drop, L: Lookup<T>>(
    alloc: Global,
    connection: &mut Connection<S>,
    what: &L,
) -> Result<Vec<T>, RowError>
    ensures found { LooksUp S.Store connection.old connection.new (L.finds what.now) result }
    ensures open { OnOkWhileClean S.Store connection.old connection.new WasOpen result }
    ensures still { WhileClean S.Store connection.old connection.new IsStill }
    ensures crash { LeavesNoMore S.Store connection.old connection.new }
{
    if !connection.is_autocommit() {
        return Err(RowError::Store);
    }
    let mut tx = connection.transaction();
    let rows = look_open(alloc, &mut tx, what);
    tx.rollback();
    rows
}
