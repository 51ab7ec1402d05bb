//! The table `vouchers`, which has a count beside each voucher.

ghost use Rattle.file_schema.specs.Inside.{StaysInside, RunsInside};
ghost use Rattle.file_rows.specs.Changes.{Changes};
ghost use Rattle.file_rows.specs.Written.{WritesInside};
ghost use Rattle.file_writes.specs.Vouchers.{voucher_values, with_new_voucher, put_voucher, set_redeemed, without_voucher};

use crate::bound::run_bound;
use file_rows::Column;
use file_schema::{RowError, run};
use model_rows::{Voucher, VoucherCount};
use sqlite::{Alter, Transaction};

// Runs a statement whose parameters are a voucher's columns in order.
#[tactic(auto, using(crate::proofs::BoundLemmas::runs_with))]
fn run_with<S: Alter>(
    tx: &mut Transaction<'_, S>,
    sql: &str,
    row: &Voucher,
) -> Result<usize, RowError>
    ensures inside { StaysInside S.Store tx.old.conn tx.new.conn }
    ensures ran { RunsInside S.Store tx.old tx.new sql.now (voucher_values row.now) result }
{
    let columns = [
        row.id.bind(),
        row.code.bind(),
        row.max_usages.bind(),
        row.valid_until.bind(),
        row.block_quota.bind(),
        row.allow_ignore_quota.bind(),
        row.price_mode.bind(),
        row.value.bind(),
        row.item.bind(),
        row.variation.bind(),
        row.quota.bind(),
        row.tag.bind(),
        row.comment.bind(),
    ];
    run_bound(tx, sql, &columns)
}

// Adds a voucher, redeemed 0 times.
fn insert_voucher<S: Alter>(tx: &mut Transaction<'_, S>, row: &Voucher) -> Result<(), RowError>
    ensures { WritesInside S.Store tx.old tx.new (Changes (with_new_voucher row.now)) result }
{
    run_with(
        tx,
        "INSERT INTO vouchers (id, code, max_usages, valid_until, block_quota, allow_ignore_quota, price_mode, amount, item_id, variation_id, quota_id, tag, comment, redeemed) VALUES (?1, ?2, ?3, ?4, ?5, ?6, ?7, ?8, ?9, ?10, ?11, ?12, ?13, 0)",
        row,
    )?;
    Ok(())
}

/// Puts the voucher in the place of its id, and leaves its count as it is. A new one is redeemed 0 times.
pub fn put_voucher<S: Alter>(tx: &mut Transaction<'_, S>, row: &Voucher) -> Result<(), RowError>
    ensures { WritesInside S.Store tx.old tx.new (Changes (put_voucher row.now)) result }
{
    let count = run_with(
        tx,
        "UPDATE vouchers SET code = ?2, max_usages = ?3, valid_until = ?4, block_quota = ?5, allow_ignore_quota = ?6, price_mode = ?7, amount = ?8, item_id = ?9, variation_id = ?10, quota_id = ?11, tag = ?12, comment = ?13 WHERE id = ?1",
        row,
    )?;
    match count {
        0 => insert_voucher(tx, row),
        1 => Ok(()),
        _ => Err(RowError::Store),
    }
}

/// Sets how often a voucher is redeemed. Refusal: 63 where the file has no such voucher.
pub fn put_redeemed<S: Alter>(
    tx: &mut Transaction<'_, S>,
    count: VoucherCount,
) -> Result<(), RowError>
    ensures { WritesInside S.Store tx.old tx.new (Changes (set_redeemed count)) result }
{
    let id = count.voucher.bind()?;
    let redeemed = count.redeemed.bind()?;
    let rows = run(
        tx,
        "UPDATE vouchers SET redeemed = ?2 WHERE id = ?1",
        &[id, redeemed],
    )?;
    if rows != 1 {
        return Err(RowError::Store);
    }
    Ok(())
}

/// Removes the voucher of this id, if there is one.
pub fn remove_voucher<S: Alter>(tx: &mut Transaction<'_, S>, id: u64) -> Result<(), RowError>
    ensures { WritesInside S.Store tx.old tx.new (Changes (without_voucher id)) result }
{
    let key = id.bind()?;
    run(tx, "DELETE FROM vouchers WHERE id = ?1", &[key])?;
    Ok(())
}
