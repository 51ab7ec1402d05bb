//! How many cart positions and vouchers there are after one more change.

ghost use Rattle.std.specs.Prelude.{◌≡◌, ◌-◌, length};
ghost use Rattle.std.specs.Option.{option_copied};
ghost use Rattle.base_tables.specs.Tables.{sum_at};
ghost use Rattle.model_rows.specs.Change.{after_change};
ghost use Rattle.draft_overlay.specs.Logs.{rows_of};

use book_usage::{Book, LookUps};
use draft_overlay::Overlay;
use model_rows::Change;

/// The number of cart positions after one more change, by the number before it.
pub fn carts_after<B: Book>(overlay: &Overlay<'_, B>, carts: usize, change: &Change) -> usize
    requires carts { carts ≡ length (rows_of overlay.now).carts }
    ensures { result ≡ length (after_change change.now (rows_of overlay.now)).carts }
{
    overlay.recall_invariant();
    match change {
        Change::PutCart(row) => without_one(carts + 1, overlay.cart(row.id)),
        Change::DropCart(id) => without_one(carts, overlay.cart(*id)),
        _ => carts,
    }
}

/// The number of vouchers after one more change, by the number before it.
pub fn vouchers_after<B: Book>(overlay: &Overlay<'_, B>, vouchers: usize, change: &Change) -> usize
    requires vouchers { vouchers ≡ length (rows_of overlay.now).vouchers }
    ensures { result ≡ length (after_change change.now (rows_of overlay.now)).vouchers }
{
    overlay.recall_invariant();
    match change {
        Change::PutVoucher(row) => without_one(vouchers + 1, overlay.voucher(row.id)),
        Change::DropVoucher(id) => without_one(vouchers, overlay.voucher(*id)),
        _ => vouchers,
    }
}

// A number of rows, less one where such a row stood.
fn without_one<T>(count: usize, gone: Option<&T>) -> usize
    ensures { result ≡ count - sum_at (λ _. 1) (option_copied gone.entry) }
{
    match gone {
        None => count,
        Some(_) => count.saturating_sub(1),
    }
}
