//! A shop's file is made.

ghost use Rattle.std.specs.Prelude.{◌≡◌, IfOk, IfErr, IsErrAnd};
ghost use Rattle.file_schema.specs.Clean.{WhileClean};
ghost use Rattle.file_schema.specs.Whole.{IsStill};
ghost use Rattle.file_tables.specs.Begun.{HasTables, LeavesBegun};
ghost use Rattle.file_tables.specs.Made.{first_shop, IsMade};
ghost use Rattle.file_tables.specs.declared.error.CreateError.TheVariants.{NotBlank};

use crate::beginning::{begin, first_row};
use crate::error::{CreateError, HandedBack};
use crate::sql::SqlTables;
use base_values::Slug;
use sqlite::{Alter, Connection};
use std::alloc::Global;

/// Makes the file of a shop in a database that has no table: its tables, with the shop's row alone. They hold an office without rows,
/// whose moment is 0 and whose ids begin with 1; no answer is kept, and no token is known. All of it is made or nothing, in a crash too.
/// Beside a refusal the connection is handed back: 60 where the database has a table already, and only there, 6, and 63 where a
/// transaction is open, the connection is shut or the store fails.
pub fn create<S: Alter>(
    alloc: Global,
    mut connection: Connection<S>,
    organizer: Slug,
    event: Slug,
) -> Result<SqlTables<S>, HandedBack<S, CreateError>>
    ensures made { IfOk result (λ tables. WhileClean S.Store connection tables.connection
        (λ old new. IsMade (first_shop organizer event) old tables.head tables.next_row new)) }
    ensures none { IfErr result (λ it. WhileClean S.Store connection it.connection IsStill) }
    ensures blank { HasTables S.Store connection → IsErrAnd result (λ it. it.error ≡ NotBlank) }
    ensures taken { IfErr result (λ it. it.error ≡ NotBlank → HasTables S.Store connection) }
    ensures crash { IfOk result (λ tables. LeavesBegun S.Store connection tables.connection
        (first_shop organizer event)) }
    ensures crash_none { IfErr result (λ it. LeavesBegun S.Store connection it.connection
        (first_shop organizer event)) }
{
    let head = first_row(organizer, event);
    match begin(&mut connection, &head) {
        Ok(()) => Ok(SqlTables::over(alloc, connection, head, 1)),
        Err(error) => Err(HandedBack { connection, error }),
    }
}
