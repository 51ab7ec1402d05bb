//! A shop's file is opened.

ghost use Rattle.file_open.specs.Opened.{OpensFile};

use crate::book::Reopened;
use crate::reopening::reopen;
use book_counters::Counters;
use file_scan::{OpenError, Progress};
use file_tables::{HandedBack, SqlTables};
use office_commands::Office;
use sqlite::{Alter, Connection};
use std::alloc::Global;

/// Opens a shop's file: its tables, and the box office that they hold, with its counters. The box office is sound, its tables hold
/// it with all answers that stand in them, and know their tokens. Nothing in the file changes, and a crash leaves what stood. The
/// progress hears of each row that was read.
/// Beside a refusal the connection is handed back: 6; 60 where the table `shop` isn't there with its columns; 61 where its row has
/// another version; 60 where another table isn't there; 62 by the least rule that is broken; 63 where a transaction is open, the
/// connection is shut, the store fails or doesn't show rows in order. Of 60, 61 and 62 each is told only for its cause, the first
/// that has one; where the file is opened none has. 63 is never told in the place of a value that can't be read, unless a call of
/// the store was refused.
pub fn open_file<S: Alter, P: Progress>(
    alloc: Global,
    mut connection: Connection<S>,
    progress: &mut P,
) -> Result<(SqlTables<S>, Office<Counters>), HandedBack<S, OpenError>>
    ensures { OpensFile S.Store connection result }
{
    match reopen(alloc, &mut connection, Counters::new(alloc), progress) {
        Ok(it) => {
            let Reopened {
                head,
                organizer,
                event,
                next_row,
                book,
            } = it;
            let office = Office::over(organizer, event, book);
            Ok((SqlTables::over(alloc, connection, head, next_row), office))
        }
        Err(error) => Err(HandedBack { connection, error }),
    }
}
