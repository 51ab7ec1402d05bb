//! The counts that a commit changes.

ghost use Rattle.file_rows.specs.Changes.{Changes, ChangesFit};
ghost use Rattle.file_rows.specs.Written.{WritesInside};
ghost use Rattle.file_meaning.specs.Free.{IsFree};
ghost use Rattle.file_meaning.specs.Made.{put_count, put_exit, put_uses, each, with_counts};
ghost use Rattle.file_tables.specs.Free.{count_stays_free, uses_stay_free};

use crate::writes::rows::put_row;
use crate::writes::writable::{Writable, write_each};
use file_rows::{ExitRow, SpentRow};
use file_schema::RowError;
use model_rows::{CountRows, QuotaCount, VoucherCount};
use sqlite::{Alter, Transaction};
use std::alloc::Global;

impl Writable for QuotaCount {
    ghost made = { λ count from. put_count count };

    ghost next = { λ count from. from };

    fn write<S: Alter>(
        &self,
        _: Global,
        tx: &mut Transaction<'_, S>,
        from: u64,
    ) -> Result<u64, RowError> {
        put_row(tx, self, from)
    }

    ghost stays_free = { count_stays_free };
}

impl Writable for VoucherCount {
    ghost made = { λ count from. put_uses count };

    ghost next = { λ count from. from };

    fn write<S: Alter>(
        &self,
        _: Global,
        tx: &mut Transaction<'_, S>,
        from: u64,
    ) -> Result<u64, RowError> {
        let spent = SpentRow {
            voucher_id: self.voucher,
            spent: self.spent,
        };
        file_writes::put_redeemed(tx, *self)?;
        file_writes::put(tx, &spent)?;
        Ok(from)
    }

    ghost stays_free = { uses_stay_free };
}

// Puts how many tickets are out of the quota of this count.
fn write_exit<S: Alter>(tx: &mut Transaction<'_, S>, count: &QuotaCount) -> Result<(), RowError>
    ensures { WritesInside S.Store tx.old tx.new (Changes (put_exit count.now)) result }
{
    let row = ExitRow {
        quota: count.quota,
        exited: count.usage.exited,
    };
    file_writes::put(tx, &row)
}

// Puts how many tickets are out of the quota of each of these counts.
fn write_exits<S: Alter>(tx: &mut Transaction<'_, S>, counts: &[QuotaCount]) -> Result<(), RowError>
    ensures { WritesInside S.Store tx.old tx.new (Changes (each put_exit counts.now)) result }
{
    'counts: for count in counts {
        write_exit(tx, count)?;
    }
    Ok(())
}

/// Puts the counts that changed; how many tickets are out only of the quotas where that changed. Refusal: 63 where a voucher
/// that is counted isn't there.
pub(crate) fn write_counts<S: Alter>(
    alloc: Global,
    tx: &mut Transaction<'_, S>,
    counts: &CountRows,
    from: u64,
) -> Result<(), RowError>
    ensures { WritesInside S.Store tx.old tx.new
        (ChangesFit (IsFree from) (with_counts counts.now)) result }
{
    let free = write_each(alloc, tx, counts.vouchers(), from)?;
    write_each(alloc, tx, counts.quotas(), free)?;
    write_exits(tx, counts.exits())
}
