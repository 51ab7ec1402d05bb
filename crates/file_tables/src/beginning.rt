//! The first row of a shop.

ghost use Rattle.std.specs.Prelude.{◌≡◌, true, IsTrue, OnErr, Err};
ghost use Rattle.file_schema.specs.Blank.{blank_schema};
ghost use Rattle.file_schema.specs.Clean.{WhileClean};
ghost use Rattle.file_schema.specs.Outcomes.{OnOkWhileClean};
ghost use Rattle.file_schema.specs.Whole.{IsStill, IsWritten};
ghost use Rattle.file_tables.specs.Begun.{BecomesBegun, HasTables, LeavesBegun};
ghost use Rattle.file_tables.specs.Made.{first_shop};
ghost use Rattle.file_tables.specs.declared.error.CreateError.TheVariants.{NotBlank};

use crate::error::CreateError;
use crate::upgrading::upgrade;
use base_values::{Moment, Slug};
use file_rows::ShopRow;
use file_schema::VERSION;
use model_rows::NextIds;
use sqlite::{Alter, Connection};
use sqlite_schema::schema::Schema;

/// The row of a shop before its first change: this version of its tables, moment 0, and each id begins with 1.
pub(crate) fn first_row(organizer: Slug, event: Slug) -> ShopRow
    ensures { result ≡ first_shop organizer event }
{
    ShopRow {
        version: VERSION,
        organizer,
        event,
        moment: Moment::new(0),
        next: NextIds::first(),
        next_token: 1,
    }
}

/// Whether there is no table, no index and no view.
pub(crate) fn is_blank(schema: &Schema) -> bool
    ensures yes { IsTrue result → schema.now ≡ blank_schema }
    ensures no { schema.now ≡ blank_schema → result ≡ true }
{
    schema.tables.is_empty() && schema.indexes.is_empty() && schema.views.is_empty()
}

/// Brings a database that has no table to this version, so that it has those of a shop, with the shop's row alone; all of it or nothing. Refusals: 60 where the
/// database has a table already, and only there, 6, and 63 where a transaction is open, the connection is shut or the store fails.
pub(crate) fn begin<S: Alter>(
    connection: &mut Connection<S>,
    shop: &ShopRow,
) -> Result<(), CreateError>
    ensures all { OnOkWhileClean S.Store connection.old connection.new
        (IsWritten (BecomesBegun shop.now)) result }
    ensures none { WhileClean S.Store connection.old connection.new
        (λ old new. OnErr result (IsStill old new)) }
    ensures blank { HasTables S.Store connection.old → result ≡ Err NotBlank }
    ensures taken { result ≡ Err NotBlank → HasTables S.Store connection.old }
    ensures crash { LeavesBegun S.Store connection.old connection.new shop.now }
{
    if !is_blank(connection.schema()) {
        return Err(CreateError::NotBlank);
    }
    match upgrade(connection, shop, &[], &[], 0) {
        Ok(()) => Ok(()),
        Err(error) => Err(CreateError::of(error)),
    }
}
