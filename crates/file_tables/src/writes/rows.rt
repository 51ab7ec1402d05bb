//! Rows with an id of their own: no row number is used.

ghost use Rattle.std.specs.Prelude.{false, if◌then◌else◌};
ghost use Rattle.model_rows.specs.declared.changes.Change.TheVariants.{PutVoucher, DropVoucher, PutPosition};
ghost use Rattle.file_rows.specs.Changes.{Changes, without_discount};
ghost use Rattle.file_rows.specs.Written.{WritesInside};
ghost use Rattle.file_meaning.specs.Made.{put_budget, put_discount};
ghost use Rattle.file_tables.specs.Numbered.{NumbersOn, WritesChange};

use file_rows::{BudgetRow, DiscountRow, SpentRow};
use file_schema::RowError;
use file_writes::Stored;
use model_rows::{OrderPos, Voucher};
use sqlite::{Alter, Transaction};

/// Puts the row in the place of its id.
pub(crate) fn put_row<S: Alter, T: Stored>(
    tx: &mut Transaction<'_, S>,
    row: &T,
    from: u64,
) -> Result<u64, RowError>
    ensures { NumbersOn S.Store tx.old tx.new from
        (λ t. T.with_row row.now (T.without_row (T.key row.now) t)) from result }
{
    file_writes::put(tx, row)?;
    Ok(from)
}

/// Removes the row of an id, if there is one.
pub(crate) fn drop_row<S: Alter, T: Stored>(
    tx: &mut Transaction<'_, S>,
    id: u64,
    from: u64,
) -> Result<u64, RowError>
    ensures { NumbersOn S.Store tx.old tx.new from (T.without_row id) from result }
{
    T::remove(tx, id)?;
    Ok(from)
}

// Puts the row of a voucher's budget; removes it where the voucher has none.
fn write_budget<S: Alter>(tx: &mut Transaction<'_, S>, row: &Voucher) -> Result<(), RowError>
    ensures { WritesInside S.Store tx.old tx.new (Changes (put_budget row.now)) result }
{
    match row.budget {
        Some(budget) => file_writes::put(
            tx,
            &BudgetRow {
                voucher_id: row.id,
                budget,
            },
        ),
        None => BudgetRow::remove(tx, row.id),
    }
}

/// Puts the voucher in the place of its id, and its budget in the place of the one that it had. Its counts stay as they are.
pub(crate) fn put_voucher_row<S: Alter>(
    tx: &mut Transaction<'_, S>,
    row: &Voucher,
    from: u64,
) -> Result<u64, RowError>
    ensures { WritesChange S.Store tx.old tx.new (PutVoucher row.now) from result }
{
    file_writes::put_voucher(tx, row)?;
    write_budget(tx, row)?;
    Ok(from)
}

/// Removes the voucher of an id, if there is one: first its budget and what is spent of it, which refer to it.
pub(crate) fn drop_voucher<S: Alter>(
    tx: &mut Transaction<'_, S>,
    id: u64,
    from: u64,
) -> Result<u64, RowError>
    ensures { WritesChange S.Store tx.old tx.new (DropVoucher id) from result }
{
    BudgetRow::remove(tx, id)?;
    SpentRow::remove(tx, id)?;
    file_writes::remove_voucher(tx, id)?;
    Ok(from)
}

// Removes the discount of the order position that stood, if one did.
fn drop_discount<S: Alter>(
    tx: &mut Transaction<'_, S>,
    id: u64,
    stood: bool,
) -> Result<(), RowError>
    ensures { WritesInside S.Store tx.old tx.new
        (Changes (λ t. if stood then without_discount id t else t)) result }
{
    if stood {
        return DiscountRow::remove(tx, id);
    }
    Ok(())
}

// Adds the row of what was taken off the position's price, if anything was.
fn add_discount<S: Alter>(tx: &mut Transaction<'_, S>, row: &OrderPos) -> Result<(), RowError>
    ensures { WritesInside S.Store tx.old tx.new (Changes (put_discount false row.now)) result }
{
    if row.discount.get() == 0 {
        return Ok(());
    }
    let discount = DiscountRow {
        position_id: row.id,
        discount: row.discount,
    };
    discount.insert(tx)
}

/// Puts the order position in the place of its id, and its discount in the place of that of the one that stood. Of a new one without a
/// discount its own row alone is written.
pub(crate) fn put_position_row<S: Alter>(
    tx: &mut Transaction<'_, S>,
    row: &OrderPos,
    from: u64,
) -> Result<u64, RowError>
    ensures { WritesChange S.Store tx.old tx.new (PutPosition row.now) from result }
{
    let stood = file_writes::put_position(tx, row)?;
    drop_discount(tx, row.id, stood)?;
    add_discount(tx, row)?;
    Ok(from)
}
