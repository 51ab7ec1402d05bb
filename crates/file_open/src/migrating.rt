//! A shop's file of an earlier version is brought to this program's.

ghost use Rattle.std.specs.Prelude.{◌≡◌, ◌≤◌, ◌<◌, ℕ, pos, false, IfOk, IfErr, IfNone, IfSome, OnOk, OnErr, IsTrue};
ghost use Rattle.sqlite.specs.Effect.{Database};
ghost use Rattle.sqlite.specs.Held.{state};
ghost use Rattle.sqlite.specs.State.{HasCleanDisk};
ghost use Rattle.file_schema.specs.Tables.{schema, this_version};
ghost use Rattle.file_schema.specs.Versions.{schema_of_version};
ghost use Rattle.file_schema.specs.Whole.{WritesWhole};
ghost use Rattle.model_rows.specs.Lists.{State, empty};
ghost use Rattle.file_rows.specs.Tables.{Tables};
ghost use Rattle.file_scan.specs.declared.error.OpenError.TheVariants.{Version};
ghost use Rattle.file_scan.specs.Causes.{IsReadable, IsReadableAs};
ghost use Rattle.file_scan.specs.Lawful.{IsOfMachine};
ghost use Rattle.file_scan.specs.Rests.{IsAt, IsOpenAt, Rests};
ghost use Rattle.file_tables.specs.Begun.{IsUpgraded, of_this_version};
ghost use Rattle.file_open.specs.Migrated.{IsMigrated, IsOfVersion, LeavesMigrated, WhereDeclared, WhileOpen};
ghost use Rattle.file_open.specs.Opened.{IsReason};
ghost use Rattle.file_open.specs.Refusals.{IsDeclaredByVersion, IsReasonAs, IsUnmigrated, TellsEarlier};
ghost use Rattle.file_open.specs.Upgraded.{HoldsLacking};
ghost use Rattle.file_scan.specs.Reading.{IsUnchangedWhere, TellsCause, FindsFile};
ghost use Rattle.file_schema.specs.Clean.{LeavesNoMore};

use crate::book::Reopened;
use crate::earlier::{Earlier, reopen_of};
use crate::reopening::reopen;
use crate::supply::Lacking;
use book_counters::Counters;
use book_usage::Book;
use file_rows::{ExitRow, ShopRow, SpentRow};
use file_scan::{OpenError, Progress};
use file_schema::{RowError, VERSION};
use file_tables::{HandedBack, upgrade};
use sqlite::{Alter, Connection};
use std::alloc::Global;

// The earlier version of ours that a refusal tells, if it tells one.
fn earlier_in(error: OpenError) -> Option<u64>
    ensures found { IfSome result
        (λ from. (1 ≤ from) × (from < this_version) × (error ≡ Version (pos from))) }
    ensures none { IfNone result (¬ TellsEarlier error) }
{
    let OpenError::Version(version) = error else {
        return None;
    };
    match u64::try_from(version) {
        Ok(from) if 1 <= from && from < VERSION => Some(from),
        _ => None,
    }
}

// A file of this program's version is opened whole, with an empty book, and nothing in it changes. Refusals: those of `reopen`.
fn look<S: Alter, B: Book + Drop, P: Progress>(
    alloc: Global,
    connection: &mut Connection<S>,
    book: B,
    progress: &mut P,
) -> Result<(), OpenError>
    requires { B.state book ≡ empty }
    ensures found { FindsFile IsReadable S.Store connection.old connection.new result }
    ensures migrated { WhereDeclared schema S.Store connection.old connection.new
        (λ before after. OnOk result (IsMigrated this_version before after)) }
    ensures cause { TellsCause IsReason S.Store connection.old connection.new result }
    ensures rests { Rests (state S.Store connection.old) (state S.Store connection.new) }
    ensures crash { LeavesNoMore S.Store connection.old connection.new }
{
    match reopen(alloc, connection, book, progress) {
        Ok(_) => Ok(()),
        Err(error) => Err(error),
    }
}

// The shop's row of a file of this earlier version, which is looked at whole with an empty book, and the rows that the file lacks.
// Nothing in it changes. Refusals: those of `reopen_of`.
fn read_earlier<S: Alter, B: Book + Drop, P: Progress>(
    alloc: Global,
    connection: &mut Connection<S>,
    book: B,
    from: u64,
    progress: &mut P,
) -> Result<(ShopRow, Lacking), OpenError>
    requires empty { B.state book ≡ empty }
    requires outside { connection.old.in_transaction ≡ false }
    requires first { 1 ≤ from }
    requires version { from < this_version }
    ensures held { IfOk result (λ it. (t : Tables) × (s : State)
        × HoldsLacking from S.Store connection.old connection.new it.0 it.1.exits.items
        it.1.spents.items t s) }
    ensures found { FindsFile (IsReadableAs from) S.Store connection.old connection.new result }
    ensures cause { TellsCause (IsReasonAs from) S.Store connection.old connection.new result }
    ensures same { IsUnchangedWhere (OnOk result) S.Store connection.old connection.new }
    ensures rests { Rests (state S.Store connection.old) (state S.Store connection.new) }
    ensures crash { LeavesNoMore S.Store connection.old connection.new }
{
    match reopen_of(alloc, connection, book, from, progress) {
        Ok(Earlier { reopened, lacking }) => {
            let Reopened { head, .. } = reopened;
            Ok((head, lacking))
        }
        Err(error) => Err(error),
    }
}

// Writes what a file of this earlier version lacks, and its shop's row, which gets this program's version. All of it is done or nothing.
// Refusals: 6 and 63 where the store refuses to write.
fn write_version<S: Alter>(
    connection: &mut Connection<S>,
    head: ShopRow,
    exits: &[ExitRow],
    spents: &[SpentRow],
    from: u64,
) -> Result<(), OpenError>
    ensures writes { WritesWhole S.Store connection.old connection.new (schema_of_version from)
        (λ (_ : Unit {0}). IsUpgraded (of_this_version head) exits.now spents.now from) result }
    ensures machine { IfErr result IsOfMachine }
{
    let mut shop = head;
    shop.version = VERSION;
    match upgrade(connection, &shop, exits, spents, from) {
        Ok(()) => Ok(()),
        Err(RowError::Memory) => Err(OpenError::Memory),
        Err(_) => Err(OpenError::Store),
    }
}

// A file of this earlier version is looked at whole, and then brought to this program's. Refusals: 63 where a transaction is open; those
// of `read_earlier`; those of `write_version`.
fn raise<S: Alter, P: Progress>(
    alloc: Global,
    connection: &mut Connection<S>,
    from: u64,
    progress: &mut P,
) -> Result<(), OpenError>
    requires first { 1 ≤ from }
    requires version { from < this_version }
    ensures opened { HasCleanDisk (state S.Store connection.new)
        → OnOk result (IsTrue (state S.Store connection.old).is_open) }
    ensures migrated { WhereDeclared (schema_of_version from) S.Store connection.old connection.new
        (λ before after. OnOk result (IsMigrated from before after)) }
    ensures none { WhileOpen S.Store connection.new
        (OnErr result (IsTrue (state S.Store connection.old).is_open
        × ((db : Database) → IsAt db (state S.Store connection.old)
        → db.schema ≡ schema_of_version from → IsAt db (state S.Store connection.new)))) }
    ensures cause { TellsCause (IsReasonAs from) S.Store connection.old connection.new result }
    ensures crash { LeavesMigrated S.Store connection.old connection.new }
{
    if !connection.is_autocommit() {
        return Err(OpenError::Store);
    }
    match read_earlier(alloc, connection, Counters::new(alloc), from, progress) {
        Ok((head, lacking)) => write_version(
            connection,
            head,
            lacking.exits.as_slice(),
            lacking.spents.as_slice(),
            from,
        ),
        Err(error) => Err(error),
    }
}

/// Brings a shop's file to this program's version, and tells of which it was. One of this version is opened whole, and nothing in it
/// changes. An earlier one is read whole and looked at as an opening does; then its tables get those that it lacks, in them a row of exits of 0
/// for each quota that has none and a row that 0 cents are spent for each voucher that has none, and the shop's row gets the version. All of it
/// is done or nothing, in a crash too: what is found then is the file as it was, or the one of this version.
/// Beside a refusal the connection is handed back, and the file is as it was: 60, 61 of a version that is none of ours, 62 by the least rule
/// that is broken, 63 and 6. Of 60, 61 and 62 each is given only for its cause; a shop that is whole gets none of them.
pub fn migrate<S: Alter, P: Progress>(
    alloc: Global,
    mut connection: Connection<S>,
    progress: &mut P,
) -> Result<(Connection<S>, u64), HandedBack<S, OpenError>>
    ensures from { IfOk result (λ it. (1 ≤ it.1) × (it.1 ≤ this_version)) }
    ensures version { IfOk result (λ it. HasCleanDisk (state S.Store it.0)
        → IsOpenAt (state S.Store connection).now (state S.Store connection) → (version : ℕ)
        → IsOfVersion version (state S.Store connection).now → version ≡ it.1) }
    ensures migrated { IfOk result (λ it. WhereDeclared (schema_of_version it.1)
        S.Store connection it.0 (IsMigrated it.1)) }
    ensures none { IfErr result (λ it. WhileOpen S.Store it.connection ((db : Database)
        → IsAt db (state S.Store connection) → IsDeclaredByVersion db
        → IsAt db (state S.Store it.connection))) }
    ensures cause { IfErr result (λ it. WhileOpen S.Store it.connection ((db : Database)
        → IsOpenAt db (state S.Store connection) → IsUnmigrated db it.error)) }
    ensures crash { IfOk result (λ it. LeavesMigrated S.Store connection it.0) }
    ensures crash_none { IfErr result (λ it. LeavesMigrated S.Store connection it.connection) }
{
    let error = match look(alloc, &mut connection, Counters::new(alloc), progress) {
        Ok(()) => return Ok((connection, VERSION)),
        Err(error) => error,
    };
    let Some(from) = earlier_in(error) else {
        return Err(HandedBack { connection, error });
    };
    match raise(alloc, &mut connection, from, progress) {
        Ok(()) => Ok((connection, from)),
        Err(error) => Err(HandedBack { connection, error }),
    }
}
