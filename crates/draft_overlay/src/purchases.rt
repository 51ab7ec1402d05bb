//! The purchases of an order.

ghost use Rattle.std.specs.Prelude.{◌≡◌, IfOk, OnOk, map, sum_by};
ghost use Rattle.draft_overlay.specs.Purchases.{purchase, weight_put, WeighMore};

use base_values::Cents;
use book_usage::Exits;
use model_catalogue::Product;
use model_rows::{Change, OrderPos};
use std::alloc::{AllocError, Global};

/// What an order position is for, the voucher that it names, its discount, and whether it has gone out.
#[derive(Clone, Copy)]
pub struct Purchase {
    pub product: Product,
    pub voucher: Option<u64>,
    pub discount: Cents,
    pub out: bool,
}

// The purchase of an order position.
fn purchase_of<R: Exits>(rows: &R, row: &OrderPos) -> Purchase
    ensures { result ≡ purchase (R.rows rows.now) row.now }
{
    Purchase {
        product: row.product,
        voucher: row.voucher,
        discount: row.discount,
        out: rows.is_out(row.id),
    }
}

/// The purchases of these order positions.
pub fn copy_purchases<R: Exits>(
    alloc: Global,
    rows: &R,
    positions: &[OrderPos],
) -> Result<Vec<Purchase>, AllocError>
    ensures { IfOk result (λ list. list.items ≡ map (purchase (R.rows rows.now)) positions.now) }
{
    positions
        .iter()
        .map(|row| purchase_of(rows, row))
        .collect(alloc)
}

/// Adds the purchases of an order that changes put.
pub fn put_purchases<R: Exits>(
    purchases: &mut Vec<Purchase>,
    rows: &R,
    order: u64,
    changes: &[Change],
) -> Result<(), AllocError>
    ensures { OnOk result (WeighMore
        (λ w. sum_by (weight_put order (R.rows rows.now) w) changes.now)
        purchases.old.items purchases.new.items) }
{
    for i in 0..changes.len() {
        put_purchase(purchases, rows, order, &changes[i])?;
    }
    Ok(())
}

// Adds the purchase that a change puts, if it puts one of the order.
fn put_purchase<R: Exits>(
    purchases: &mut Vec<Purchase>,
    rows: &R,
    order: u64,
    change: &Change,
) -> Result<(), AllocError>
    ensures { OnOk result (WeighMore
        (λ w. weight_put order (R.rows rows.now) w change.now)
        purchases.old.items purchases.new.items) }
{
    match change {
        Change::PutPosition(row) => {
            if row.order == order {
                purchases.push(purchase_of(rows, row))?;
            }
            Ok(())
        }
        _ => Ok(()),
    }
}
