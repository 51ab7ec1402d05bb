//! What is sold, held and waited for.

ghost use Rattle.std.specs.Prelude.{◌≡◌, ◌↔◌, IfOk, IfErr, OnOk, IsTrue};
ghost use Rattle.file_rebuild.specs.Arranged.{vouchers_arranged, positions_arranged, AreBudgetsOf, AreDiscountsOf, SalesRise};
ghost use Rattle.file_rebuild.specs.declared.error.ArrangeError.TheVariants as refusals;

use crate::error::ArrangeError;
use crate::members::both;
use crate::positions::positions_in;
use crate::vouchers::vouchers_in;
use file_rows::SaleRows;
use model_rows::{CartPos, Order, OrderPos, Voucher, Waiting};
use std::alloc::Global;

/// What is sold, held and waited for, and whether each budget is that of a voucher and each discount above 0 and that of an order position.
#[derive(Drop)]
pub(crate) struct SaleParts {
    pub(crate) vouchers: Vec<Voucher>,
    pub(crate) carts: Vec<CartPos>,
    pub(crate) orders: Vec<Order>,
    pub(crate) positions: Vec<OrderPos>,
    pub(crate) waiting: Vec<Waiting>,
    pub(crate) whole: bool,
}

/// What is sold, held and waited for, with budgets beside vouchers and discounts beside order positions. Refusals: 6, and 63 where ids of these four
/// don't rise.
pub(crate) fn sales_in(alloc: Global, rows: SaleRows) -> Result<SaleParts, ArrangeError>
    ensures carts { IfOk result (λ s. s.carts ≡ rows.carts) }
    ensures orders { IfOk result (λ s. s.orders ≡ rows.orders) }
    ensures waiting { IfOk result (λ s. s.waiting ≡ rows.waiting) }
    ensures vouchers { IfOk result (λ s.
        s.vouchers.items ≡ vouchers_arranged rows.vouchers.items rows.budgets.items) }
    ensures positions { IfOk result (λ s.
        s.positions.items ≡ positions_arranged rows.positions.items rows.discounts.items) }
    ensures order { OnOk result (SalesRise rows) }
    ensures refused { IfErr result (λ e. e ≡ refusals.Order → ¬ SalesRise rows) }
    ensures whole { IfOk result (λ s. IsTrue s.whole
        ↔ (AreBudgetsOf rows.budgets.items s.vouchers.items
        × AreDiscountsOf rows.discounts.items s.positions.items)) }
{
    let vouchers = vouchers_in(alloc, rows.vouchers, rows.budgets.as_slice())?;
    let positions = positions_in(alloc, rows.positions, rows.discounts.as_slice())?;
    let whole = both(vouchers.whole, positions.whole);
    Ok(SaleParts {
        vouchers: vouchers.vouchers,
        carts: rows.carts,
        orders: rows.orders,
        positions: positions.positions,
        waiting: rows.waiting,
        whole,
    })
}
