//! The table `vouchers`.

ghost use Rattle.file_rows.specs.Rows.{voucher_row};
ghost use Rattle.file_rows.specs.Fit.{IsFitVoucher};
ghost use Rattle.file_reads.specs.Texts.{vouchers_text};

use crate::columns::Columns;
use crate::loaded::Loaded;
use file_rows::{VoucherHead, VoucherRow};
use file_schema::RowError;
use sqlite::Row;
use std::alloc::Global;

impl Loaded for VoucherRow {
    ghost as_row = { voucher_row };

    ghost fits = { IsFitVoucher };

    ghost text = { vouchers_text };

    ghost tree = { 8 };

    ghost since = { 1 };

    #[tactic(auto, using(crate::proofs::SelectLemmas::vouchers_selected))]
    fn statement() -> &'static str {
        "SELECT id, code, max_usages, valid_until, block_quota, allow_ignore_quota, price_mode, amount, item_id, variation_id, quota_id, tag, comment, redeemed FROM vouchers ORDER BY id"
    }

    fn read(alloc: Global, row: &Row) -> Result<VoucherRow, RowError> {
        match Columns::read_from(alloc, row, 0) {
            Ok((id, (code, (max_usages, (valid_until, (block_quota, middle)))))) => {
                let (allow_ignore_quota, (price_mode, (amount, (item_id, others)))) = middle;
                let (variation_id, (quota_id, (tag, (comment, (redeemed, ()))))) = others;
                Ok(VoucherRow {
                    voucher: VoucherHead {
                        id,
                        code,
                        max_usages,
                        valid_until,
                        block_quota,
                        allow_ignore_quota,
                        price_mode,
                        value: amount,
                        item: item_id,
                        variation: variation_id,
                        quota: quota_id,
                        tag,
                        comment,
                    },
                    redeemed,
                })
            }
            Err(error) => Err(error),
        }
    }
}
