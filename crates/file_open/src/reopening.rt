//! A shop's file is read, and what it holds is opened.

ghost use Rattle.std.specs.Prelude.{◌≡◌, ◌⊎◌, false, IfOk, IfErr, OnOk, IsTrue};
ghost use Rattle.sqlite.specs.Held.{state};
ghost use Rattle.file_schema.specs.Tables.{this_version};
ghost use Rattle.model_rows.specs.Lists.{empty};
ghost use Rattle.model_invariant.specs.Sound.{IsSound};
ghost use Rattle.file_rows.specs.Tables.{Holds};
ghost use Rattle.file_scan.specs.declared.error.OpenError.{OpenError};
ghost use Rattle.file_scan.specs.Rests.{Rests};
ghost use Rattle.file_scan.specs.Causes.{IsReadable, IsCause};
ghost use Rattle.file_scan.specs.Fits.{IsFitFile};
ghost use Rattle.file_scan.specs.Read.{tables_of};
ghost use Rattle.file_scan.specs.Stopped.{IsStopped, WhereClosed};
ghost use Rattle.file_open.specs.Opened.{IsReason, IsOpened, IsWithheld, AreNamesOf, IsFaultless};
ghost use Rattle.file_scan.specs.Reading.{OfThisVersion, IsUnchangedWhere, TellsCause, FindsFile};
ghost use Rattle.file_schema.specs.Clean.{LeavesNoMore};

use crate::book::{Reopened, open_rows};
use book_usage::Book;
use file_scan::{FileTables, OpenError, Progress, read_file};
use file_schema::schema_known;
use sqlite::{Alter, Connection};
use std::alloc::Global;

// All that the tables of a file hold, read outside a transaction. Refusals: those of `read_file`, and 63 where one is open.
fn read_outside<S: Alter, P: Progress>(
    alloc: Global,
    connection: &mut Connection<S>,
    progress: &mut P,
) -> Result<FileTables, OpenError>
    ensures held { OfThisVersion S.Store connection.old connection.new
        (λ db. IfOk result (λ file. Holds db.trees (tables_of file))) }
    ensures version { IfOk result (λ file. file.shop.version ≡ this_version) }
    ensures limits { IfOk result IsFitFile }
    ensures found { FindsFile IsReadable S.Store connection.old connection.new result }
    ensures cause { TellsCause IsCause S.Store connection.old connection.new result }
    ensures store { OfThisVersion S.Store connection.old connection.new
        (λ db. IfErr result (WhereClosed (IsTrue (state S.Store connection.old).in_transaction
        ⊎ IsStopped (state S.Store connection.old) (state S.Store connection.new)))) }
    ensures outside { OnOk result (connection.new.in_transaction ≡ false) }
    ensures same { IsUnchangedWhere (OnOk result) S.Store connection.old connection.new }
    ensures rests { Rests (state S.Store connection.old) (state S.Store connection.new) }
    ensures crash { LeavesNoMore S.Store connection.old connection.new }
{
    if !connection.is_autocommit() {
        return Err(OpenError::Store);
    }
    read_file(alloc, connection, progress)
}

/// What a shop's file holds, with an empty book that gets the rows of its box office. Nothing in the file changes, and a crash
/// leaves what stood. The book is sound; the file holds it, with all answers that stand there, and knows its tokens.
/// Refusals: 6; 60 where the table `shop` isn't there with its columns; 61 where its row has another version; 60 where another table
/// isn't there; 62 by the least rule that is broken; 63 where a transaction is open, the connection is shut, the store fails or
/// doesn't show rows in order. Of 60, 61 and 62 each is told only for its cause, the first that has one; where the file is opened none has.
pub(crate) fn reopen<S: Alter, B: Book + Drop, P: Progress>(
    alloc: Global,
    connection: &mut Connection<S>,
    book: B,
    progress: &mut P,
) -> Result<Reopened<B>, OpenError>
    requires { B.state book ≡ empty }
    ensures opened { OfThisVersion S.Store connection.old connection.new
        (λ db. IfOk result (λ it. IsOpened db.trees it.head it.next_row (B.state it.book)
        (state S.Store connection.new))) }
    ensures names { IfOk result (λ it. AreNamesOf it.head it.organizer it.event) }
    ensures version { IfOk result (λ it. it.head.version ≡ this_version) }
    ensures sound { IfOk result (λ it. IsSound (B.state it.book)) }
    ensures found { FindsFile IsReadable S.Store connection.old connection.new result }
    ensures whole { OfThisVersion S.Store connection.old connection.new
        (λ db. OnOk result (IsFaultless db)) }
    ensures cause { TellsCause IsReason S.Store connection.old connection.new result }
    ensures store { OfThisVersion S.Store connection.old connection.new
        (λ db. IfErr result (WhereClosed
        (IsWithheld db (state S.Store connection.old) (state S.Store connection.new)))) }
    ensures same { IsUnchangedWhere (OnOk result) S.Store connection.old connection.new }
    ensures rests { Rests (state S.Store connection.old) (state S.Store connection.new) }
    ensures crash { LeavesNoMore S.Store connection.old connection.new }
{
    schema_known(connection);
    match read_outside(alloc, connection, progress) {
        Ok(file) => open_rows(alloc, book, file),
        Err(error) => Err(error),
    }
}
