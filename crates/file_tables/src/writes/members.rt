//! The members of quotas, and the items of check-in lists.

ghost use Rattle.std.specs.Prelude.{◌≡◌, ◌+◌, ◌==◌, length, map, filter, bytes_eq, IfOk, OnOk};
ghost use Rattle.file_schema.specs.Inside.{StaysInside};
ghost use Rattle.model_rows.specs.declared.changes.Change.TheVariants.{PutQuota, PutCheckinList};
ghost use Rattle.base_tables.specs.Rising.{rising};
ghost use Rattle.file_rows.specs.Changes.{Changes, ChangesFit};
ghost use Rattle.file_rows.specs.Tables.{Tables, Holds};
ghost use Rattle.file_rows.specs.Written.{WhileInside, WritesInside, NumbersInside};
ghost use Rattle.file_writes.specs.Removed.{AreApart};
ghost use Rattle.file_meaning.specs.Links.{are_just};
ghost use Rattle.file_meaning.specs.Made.{put_links, put_release};
ghost use Rattle.file_tables.specs.Numbered.{WritesChange};
ghost use Rattle.file_tables.specs.Steps.{made_each};

use base_tables::Ids;
use file_reads::{FindByOwner, members_of};
use file_rows::{ListItem, Member, QuotaItem, QuotaVariation, ReleaseRow};
use file_schema::RowError;
use file_writes::{RemoveByOwner, Stored, remove_members};
use model_catalogue::Quota;
use model_rows::CheckinList;
use sqlite::{Alter, Transaction};
use std::alloc::{AllocError, Global};

// Adds one member, and says which number follows on its own.
fn add_member<S: Alter, T: RemoveByOwner>(
    tx: &mut Transaction<'_, S>,
    owner: u64,
    number: u64,
    member: u64,
) -> Result<u64, RowError>
    ensures { NumbersInside S.Store tx.old tx.new
        (Changes (T.with_row (T.row_of number owner member))) (number + 1) result }
{
    let Some(following) = number.checked_add(1) else {
        return Err(RowError::Store);
    };
    let row = T::new(number, owner, member);
    row.insert(tx)?;
    Ok(following)
}

// Adds the members of an owner, and says which number follows on theirs.
fn add_members<S: Alter, T: RemoveByOwner>(
    tx: &mut Transaction<'_, S>,
    owner: u64,
    from: u64,
    members: &[u64],
) -> Result<u64, RowError>
    ensures { NumbersInside S.Store tx.old tx.new (Changes
        (made_each (λ id n. T.with_row (T.row_of n owner id)) (λ _ n. n + 1) members.now from))
        (from + length members.now) result }
{
    let mut free = from;
    'members: for member in members {
        free = add_member::<S, T>(tx, owner, free, *member)?;
    }
    Ok(free)
}

// Whether ids in rising order, each once, are these.
fn sorts_to(found: Vec<u64>, ids: &[u64]) -> bool
    ensures { result ≡ bytes_eq (rising found.items) ids.now }
{
    let sorted = Ids::sorted(found);
    sorted.as_slice() == ids
}

// Whether ids, in whatever order, are just these, which rise.
fn are_just(found: Vec<u64>, ids: &[u64]) -> bool
    ensures { result ≡ are_just ids.now found.items }
{
    found.len() == ids.len() && sorts_to(found, ids)
}

// The members that rows name.
fn members_named<T: Member>(alloc: Global, rows: &[T]) -> Result<Vec<u64>, AllocError>
    ensures { IfOk result (λ ids. ids.items ≡ map T.member_of rows.now) }
{
    rows.iter().map(|row| row.member()).collect(alloc)
}

// Whether the members of an owner that stand are just these, which rise.
fn members_stand<S: Alter, T: FindByOwner>(
    alloc: Global,
    tx: &mut Transaction<'_, S>,
    owner: u64,
    members: &[u64],
) -> Result<bool, RowError>
    ensures inside { StaysInside S.Store tx.old.conn tx.new.conn }
    ensures told { WhileInside S.Store tx.old tx.new (λ old _. IfOk result (λ just. (t : Tables)
        → Holds old.now.trees t → just ≡ are_just members.now
        (map T.member_of (filter (λ r. T.owner_of r == owner) (T.rows t))))) }
    ensures still { WhileInside S.Store tx.old tx.new (λ old new.
        OnOk result (Changes (λ t. t) old new)) }
{
    let rows = members_of::<S, T>(alloc, tx, owner)?;
    let found = members_named(alloc, rows.as_slice())?;
    Ok(are_just(found, members))
}

// The number that follows on those of these members.
fn number_behind(from: u64, members: &[u64]) -> Result<u64, RowError>
    ensures { IfOk result (λ free. free ≡ from + length members.now) }
{
    match from.checked_add(members.len() as u64) {
        Some(free) => Ok(free),
        None => Err(RowError::Store),
    }
}

// Puts the members of an owner in the place of those that it had. Where these stand already nothing is written.
fn write_members<S: Alter, T: FindByOwner + RemoveByOwner>(
    alloc: Global,
    tx: &mut Transaction<'_, S>,
    owner: u64,
    from: u64,
    members: &[u64],
) -> Result<u64, RowError>
    ensures { NumbersInside S.Store tx.old tx.new
        (ChangesFit (λ t. AreApart T.number_of (T.rows t))
        (λ t. T.with_rows (put_links T.owner_of T.member_of (λ n id. T.row_of n owner id)
        owner from members.now (T.rows t)) t)) (from + length members.now) result }
{
    let stand = members_stand::<S, T>(alloc, tx, owner, members)?;
    if stand {
        return number_behind(from, members);
    }
    remove_members::<S, T>(tx, owner)?;
    add_members::<S, T>(tx, owner, from, members)
}

// Puts the row by which a quota releases places; removes it where the quota keeps them.
fn write_release<S: Alter>(tx: &mut Transaction<'_, S>, row: &Quota) -> Result<(), RowError>
    ensures { WritesInside S.Store tx.old tx.new (Changes (put_release row.now)) result }
{
    if row.release_after_exit {
        file_writes::put(tx, &ReleaseRow { quota: row.id })
    } else {
        ReleaseRow::remove(tx, row.id)
    }
}

/// Puts the quota in the place of its id, and its members in the place of those that it had. Members that stand already aren't
/// written: a quota that is resized is one row, and a look at the one by which it releases places.
pub(crate) fn write_quota<S: Alter>(
    alloc: Global,
    tx: &mut Transaction<'_, S>,
    row: &Quota,
    from: u64,
) -> Result<u64, RowError>
    ensures { WritesChange S.Store tx.old tx.new (PutQuota row.now) from result }
{
    file_writes::put(tx, row)?;
    write_release(tx, row)?;
    let mid = write_members::<S, QuotaItem>(alloc, tx, row.id, from, row.items.as_slice())?;
    write_members::<S, QuotaVariation>(alloc, tx, row.id, mid, row.variations.as_slice())
}

/// Puts the check-in list in the place of its id, and its items in the place of those that it had.
pub(crate) fn write_list<S: Alter>(
    tx: &mut Transaction<'_, S>,
    row: &CheckinList,
    from: u64,
) -> Result<u64, RowError>
    ensures { WritesChange S.Store tx.old tx.new (PutCheckinList row.now) from result }
{
    file_writes::put(tx, row)?;
    remove_members::<S, ListItem>(tx, row.id)?;
    add_members::<S, ListItem>(tx, row.id, from, row.limit_products.as_slice())
}
