//! A file is brought to this version.

ghost use Rattle.file_rows.specs.Changes.{Changes};
ghost use Rattle.file_rows.specs.Written.{WritesInside};
ghost use Rattle.file_schema.specs.Versions.{schema_of_version};
ghost use Rattle.file_meaning.specs.Made.{each};
ghost use Rattle.file_tables.specs.Begun.{IsUpgraded};
ghost use Rattle.file_tables.specs.Whole.{MakesWhole};

use file_rows::{ExitRow, ShopRow, SpentRow};
use file_schema::{RowError, Writing, add_tables, write_whole};
use file_writes::{Stored, put};
use sqlite::{Alter, Connection, Transaction};

// Adds rows, whose keys have to be new.
fn add_rows<S: Alter, T: Stored>(tx: &mut Transaction<'_, S>, rows: &[T]) -> Result<(), RowError>
    ensures { WritesInside S.Store tx.old tx.new
        (Changes (each T.with_row rows.now)) result }
{
    'rows: for row in rows {
        row.insert(tx)?;
    }
    Ok(())
}

// The tables that an earlier version hasn't, the rows of exits and of what is spent, and the shop's row.
#[derive(Drop)]
struct ToThisVersion<'a> {
    shop: &'a ShopRow,
    exits: &'a [ExitRow],
    spents: &'a [SpentRow],
    from: u64,
}

impl Writing<()> for ToThisVersion<'_> {
    ghost over = { λ what. schema_of_version what.from };

    ghost turns = { λ what _ db after. IsUpgraded what.shop.now what.exits.now what.spents.now
        what.from db after };

    fn write<S: Alter>(&self, tx: &mut Transaction<'_, S>) -> Result<(), RowError> {
        add_tables(tx, self.from)?;
        add_rows(tx, self.exits)?;
        add_rows(tx, self.spents)?;
        put(tx, self.shop)
    }
}

/// Brings a file of an earlier version to this one: makes the tables that it hasn't, adds these rows of exits and of what is spent, and puts
/// the shop's row; all else stays as it is. A file of version 0 has no table. All of it is done or nothing, in a crash too. Refusals: 6, and
/// 63 where a transaction is open, the connection is shut or the store fails.
pub fn upgrade<S: Alter>(
    connection: &mut Connection<S>,
    shop: &ShopRow,
    exits: &[ExitRow],
    spents: &[SpentRow],
    from: u64,
) -> Result<(), RowError>
    ensures { MakesWhole S.Store connection.old connection.new (schema_of_version from)
        (IsUpgraded shop.now exits.now spents.now from) result }
{
    let what = ToThisVersion {
        shop,
        exits,
        spents,
        from,
    };
    write_whole(connection, &what)
}
