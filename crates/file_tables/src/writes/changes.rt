//! The change of a row.

ghost use Rattle.file_meaning.specs.Made.{made_by, next_by};
ghost use Rattle.file_tables.specs.Free.{change_stays_free};

use crate::writes::members::{write_list, write_quota};
use crate::writes::rows::{drop_row, drop_voucher, put_position_row, put_row, put_voucher_row};
use crate::writes::writable::Writable;
use file_schema::RowError;
use model_rows::{CartPos, Change, Waiting};
use sqlite::{Alter, Transaction};
use std::alloc::Global;

impl Writable for Change {
    ghost made = { made_by };

    ghost next = { next_by };

    fn write<S: Alter>(
        &self,
        alloc: Global,
        tx: &mut Transaction<'_, S>,
        from: u64,
    ) -> Result<u64, RowError> {
        match self {
            Change::PutItem(row) => put_row(tx, row, from),
            Change::PutVariation(row) => put_row(tx, row, from),
            Change::PutQuota(row) => write_quota(alloc, tx, row, from),
            Change::PutVoucher(row) => put_voucher_row(tx, row, from),
            Change::PutCart(row) => put_row(tx, row, from),
            Change::PutOrder(row) => put_row(tx, row, from),
            Change::PutPosition(row) => put_position_row(tx, row, from),
            Change::PutWaiting(row) => put_row(tx, row, from),
            Change::DropVoucher(id) => drop_voucher(tx, *id, from),
            Change::DropCart(id) => drop_row::<S, CartPos>(tx, *id, from),
            Change::DropWaiting(id) => drop_row::<S, Waiting>(tx, *id, from),
            Change::PutCheckinList(row) => write_list(tx, row, from),
            Change::PutCheckin(row) => put_row(tx, row, from),
        }
    }

    ghost stays_free = { change_stays_free };
}
