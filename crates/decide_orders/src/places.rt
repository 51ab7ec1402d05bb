//! Whether what was put may stay.

ghost use Rattle.std.specs.Prelude.{◌≡◌, IfOk};
ghost use Rattle.draft_changes.specs.Decides.{first_over_since};
ghost use Rattle.draft_changes.specs.DraftState.{now, IsMarkOf};
ghost use Rattle.model_rows.specs.Budgets.{are_within};
ghost use Rattle.decide_orders.specs.Places.{own_positions, places_test, sale_test};

use crate::budgets::are_within;
use book_usage::Book;
use draft_changes::{Draft, Mark};
use model_catalogue::CatalogueRefusal;
use model_commands::{OrderRefusal, VoucherRefusal};
use model_rows::{OrderPos, Own};
use std::alloc::{AllocError, Global};

/// The positions, as rows of the request's own.
pub(crate) fn own_rows(alloc: Global, positions: &[OrderPos]) -> Result<Vec<Own>, AllocError>
    ensures { IfOk result (λ own. own.items ≡ own_positions positions.now) }
{
    positions
        .iter()
        .map(|row| Own::Position(row.id))
        .collect(alloc)
}

/// No quota may be over since the mark, where the own rows don't weigh if their vouchers ignore quotas; and the tables
/// have to take the rows. Refusals, in this order: 28 `SoldOut` with the least such quota; 16 `Full`.
pub fn test_places<B: Book>(
    draft: &Draft<'_, B>,
    mark: &Mark,
    own: &[Own],
    takes: bool,
) -> Result<(), OrderRefusal>
    requires { IsMarkOf draft.now mark.now }
    ensures { result ≡ places_test (first_over_since mark.now own.now draft.now) takes }
{
    if let Some(quota) = draft.first_over(mark, own) {
        return Err(OrderRefusal::Voucher(VoucherRefusal::SoldOut(quota)));
    }
    if !takes {
        return Err(OrderRefusal::Voucher(VoucherRefusal::Catalogue(CatalogueRefusal::Full)));
    }
    Ok(())
}

/// No more may be spent than their budgets of the vouchers that an order's positions name, no quota may be over since the mark,
/// where the own rows don't weigh if their vouchers ignore quotas; and the tables have to take the rows. Refusals, in this
/// order: 34 `OverBudget`; 28 `SoldOut` with the least such quota; 16 `Full`.
pub fn test_sale<B: Book>(
    draft: &Draft<'_, B>,
    mark: &Mark,
    positions: &[OrderPos],
    own: &[Own],
    takes: bool,
) -> Result<(), OrderRefusal>
    requires { IsMarkOf draft.now mark.now }
    ensures { result ≡ sale_test (are_within (now draft.now).lists positions.now)
        (first_over_since mark.now own.now draft.now) takes }
{
    if !are_within(draft, positions) {
        return Err(OrderRefusal::Voucher(VoucherRefusal::OverBudget));
    }
    test_places(draft, mark, own, takes)
}
