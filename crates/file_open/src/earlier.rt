//! A shop's file of an earlier version is read, and what it holds is opened.

ghost use Rattle.std.specs.Prelude.{◌≡◌, ◌≤◌, false, IfOk, IfErr, OnOk};
ghost use Rattle.sqlite.specs.Held.{state};
ghost use Rattle.file_schema.specs.Tables.{this_version};
ghost use Rattle.model_rows.specs.Lists.{empty};
ghost use Rattle.file_scan.specs.Rests.{Rests};
ghost use Rattle.model_invariant.specs.Sound.{IsSound};
ghost use Rattle.file_rows.specs.Tables.{Tables};
ghost use Rattle.file_scan.specs.Causes.{IsReadableAs};
ghost use Rattle.file_scan.specs.Fits.{IsFitFile};
ghost use Rattle.file_scan.specs.Read.{tables_of};
ghost use Rattle.file_open.specs.Refusals.{IsReasonAs, IsWhyAs};
ghost use Rattle.file_open.specs.Supplied.{tables_supplied, AreLacking};
ghost use Rattle.file_open.specs.Upgraded.{StandTyped, HoldsLacking};
ghost use Rattle.file_scan.specs.Reading.{IsUnchangedWhere, TellsCause, FindsFile};
ghost use Rattle.file_schema.specs.Clean.{LeavesNoMore};

use crate::book::{Reopened, open_rows};
use crate::supply::{Lacking, supply};
use book_usage::Book;
use file_scan::{FileTables, OpenError, Progress, read_file_of};
use sqlite::{Alter, Connection};
use std::alloc::Global;

/// What a file of an earlier version holds, and the rows that it lacks.
#[derive(Drop)]
pub(crate) struct Earlier<B: Book + Drop> {
    pub reopened: Reopened<B>,
    pub lacking: Lacking,
}

// What was read of a file of this version, with an empty book that gets its rows, once those that it lacks are supplied.
// Refusals: those of `open_rows`.
fn open_supplied<B: Book + Drop>(
    alloc: Global,
    book: B,
    own: u64,
    file: FileTables,
) -> Result<Earlier<B>, OpenError>
    requires { B.state book ≡ empty }
    ensures head { IfOk result (λ it. it.reopened.head ≡ file.shop) }
    ensures lacking { IfOk result
        (λ it. AreLacking own (tables_of file) it.lacking.exits.items it.lacking.spents.items) }
    ensures sound { IfOk result (λ it. IsSound (B.state it.reopened.book)) }
    ensures held { IsFitFile file → IfOk result (λ it. StandTyped it.reopened.head
        (B.state it.reopened.book) (tables_supplied own (tables_of file))) }
    ensures refused { IfErr result (IsWhyAs own file) }
{
    match supply(alloc, own, file) {
        Ok((full, lacking)) => match open_rows(alloc, book, full) {
            Ok(reopened) => Ok(Earlier { reopened, lacking }),
            Err(error) => Err(error),
        },
        Err(_) => Err(OpenError::Memory),
    }
}

/// What a shop's file of this version holds, which is an earlier one or this program's, with an empty book that gets the rows of its box
/// office. Nothing in the file changes, and a crash leaves what stood. The file holds the shop whole, and can be upgraded.
/// What the version lacks is supplied: a row of exits of 0 for each count, and one for each voucher, of which 0 cents are spent.
/// Refusals: those of `read_file_of`; 62 by rules 3 to 8; 63 where the store didn't show rows in order.
pub(crate) fn reopen_of<S: Alter, B: Book + Drop, P: Progress>(
    alloc: Global,
    connection: &mut Connection<S>,
    book: B,
    own: u64,
    progress: &mut P,
) -> Result<Earlier<B>, OpenError>
    requires empty { B.state book ≡ empty }
    requires outside { connection.old.in_transaction ≡ false }
    requires first { 1 ≤ own }
    requires version { own ≤ this_version }
    ensures held { IfOk result (λ it. (t : Tables)
        × HoldsLacking own S.Store connection.old connection.new it.reopened.head
        it.lacking.exits.items it.lacking.spents.items t (B.state it.reopened.book)) }
    ensures found { FindsFile (IsReadableAs own) S.Store connection.old connection.new result }
    ensures cause { TellsCause (IsReasonAs own) S.Store connection.old connection.new result }
    ensures same { IsUnchangedWhere (OnOk result) S.Store connection.old connection.new }
    ensures rests { Rests (state S.Store connection.old) (state S.Store connection.new) }
    ensures mode { connection.new.in_transaction ≡ false }
    ensures crash { LeavesNoMore S.Store connection.old connection.new }
{
    match read_file_of(alloc, connection, own, progress) {
        Ok(file) => open_supplied(alloc, book, own, file),
        Err(error) => Err(error),
    }
}
