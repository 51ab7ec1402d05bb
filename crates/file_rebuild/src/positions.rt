//! Order positions with their discounts.

ghost use Rattle.std.specs.Prelude.{◌≡◌, ◌==◌, ◌↔◌, All, not, true, map, unwrap_or, IfOk, IfErr, OnOk, IsTrue};
ghost use Rattle.file_meaning.specs.Rows.{position_of};
ghost use Rattle.file_rebuild.specs.Arranged.{beside, positions_arranged, AreDiscountsOf, PositionsRise};
ghost use Rattle.file_rebuild.specs.declared.error.ArrangeError.TheVariants.{Order};

use crate::error::ArrangeError;
use crate::members::both;
use crate::values::values_in;
use base_tables::rises;
use base_values::Cents;
use file_rows::{DiscountRow, PositionRow};
use model_rows::OrderPos;
use std::alloc::{AllocError, Global};

/// Order positions, and whether each discount is above 0 and that of one of them.
#[derive(Drop)]
pub(crate) struct PositionParts {
    pub(crate) positions: Vec<OrderPos>,
    pub(crate) whole: bool,
}

// The ids of the rows.
fn ids_of(alloc: Global, rows: &[PositionRow]) -> Result<Vec<u64>, AllocError>
    ensures { IfOk result (λ ids. ids.items ≡ map (λ r. r.id) rows.now) }
{
    rows.iter().map(|row| row.id).collect(alloc)
}

// An order position of its row and its discount; without one it is 0.
fn position_from(parts: (PositionRow, Option<Cents>)) -> OrderPos
    ensures { result ≡ position_of (unwrap_or parts.1 0) parts.0 }
{
    let (row, discount) = parts;
    OrderPos {
        id: row.id,
        order: row.order,
        positionid: row.positionid,
        product: row.product,
        price: row.price,
        voucher: row.voucher,
        secret: row.secret,
        discount: discount.unwrap_or(Cents::new(0)),
    }
}

// Each row with its discount.
fn joined(
    alloc: Global,
    rows: Vec<PositionRow>,
    discounts: Vec<Option<Cents>>,
) -> Result<Vec<OrderPos>, AllocError>
    ensures { IfOk result (λ all. all.items
        ≡ beside (λ r discount. position_of (unwrap_or discount 0) r) rows.items discounts.items) }
{
    rows.into_iter()
        .zip(discounts.into_iter())
        .map(position_from)
        .collect(alloc)
}

// Whether each discount is above 0.
fn take_something(discounts: &[DiscountRow]) -> bool
    ensures { IsTrue result ↔ All (λ r. not (r.discount == 0) ≡ true) discounts.now }
{
    discounts.iter().all(|row| row.discount.get() != 0)
}

/// The order positions, in the order of the rows, with the discounts that stand under their ids. Refusals: 6, and 63 where the ids of either don't rise.
pub(crate) fn positions_in(
    alloc: Global,
    rows: Vec<PositionRow>,
    discounts: &[DiscountRow],
) -> Result<PositionParts, ArrangeError>
    ensures positions { IfOk result (λ p. p.positions.items
        ≡ positions_arranged rows.items discounts.now) }
    ensures order { OnOk result (PositionsRise rows.items discounts.now) }
    ensures refused { IfErr result (λ e. e ≡ Order → ¬ PositionsRise rows.items discounts.now) }
    ensures whole { IfOk result (λ p. IsTrue p.whole
        ↔ AreDiscountsOf discounts.now p.positions.items) }
{
    let ids = ids_of(alloc, rows.as_slice())?;
    if !both(rises(ids.as_slice()), rises(discounts)) {
        return Err(ArrangeError::Order);
    }
    let values = values_in(alloc, ids.as_slice(), discounts)?;
    let whole = both(values.whole, take_something(discounts));
    let positions = joined(alloc, rows, values.each)?;
    Ok(PositionParts { positions, whole })
}
