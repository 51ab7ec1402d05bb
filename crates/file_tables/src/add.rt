//! A new token.

ghost use Rattle.file_schema.specs.Tables.{schema};
ghost use Rattle.file_tables.specs.Begun.{HasToken};
ghost use Rattle.file_tables.specs.Whole.{MakesWhole};

use file_rows::{ShopRow, Token};
use file_schema::{RowError, Writing, write_whole};
use file_writes::{Stored, put};
use sqlite::{Alter, Connection, Transaction};

// A token, and the shop's row with the id that the next one gets.
#[derive(Drop)]
struct NewToken<'a> {
    shop: &'a ShopRow,
    token: &'a Token,
}

impl Writing<()> for NewToken<'_> {
    ghost over = { λ _. schema };

    ghost turns = { λ what _ db after. HasToken what.shop.now what.token.now db after };

    fn write<S: Alter>(&self, tx: &mut Transaction<'_, S>) -> Result<(), RowError> {
        put(tx, self.shop)?;
        self.token.insert(tx)
    }
}

/// Adds a token whose id and digest are new, and puts the shop's row, all of it or nothing. Refusals: 6, 60 where the file has
/// no such table, and 63 where a transaction is open, the connection is shut, the token isn't new or the store fails.
pub(crate) fn put_token<S: Alter>(
    connection: &mut Connection<S>,
    shop: &ShopRow,
    token: &Token,
) -> Result<(), RowError>
    ensures { MakesWhole S.Store connection.old connection.new schema
        (HasToken shop.now token.now) result }
{
    write_whole(connection, &NewToken { shop, token })
}
