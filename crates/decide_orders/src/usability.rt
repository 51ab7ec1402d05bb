//! Whether a voucher can be used for a product.

ghost use Rattle.std.specs.Prelude.{◌≡◌};
ghost use Rattle.decide_orders.specs.Usable.{usable};

use base_values::Moment;
use book_usage::Catalogue;
use book_usage::rules::fits;
use model_catalogue::Product;
use model_commands::VoucherRefusal;
use model_rows::Voucher;

/// Whether a voucher can be used for a product at a moment.
/// Refusals: 24 `VoucherExpired`; 26 `WrongProduct`.
pub fn usable(
    voucher: &Voucher,
    catalogue: &Catalogue,
    product: Product,
    at: Moment,
) -> Result<(), VoucherRefusal>
    ensures { result ≡ usable catalogue.now.lists at product voucher.now }
{
    if !voucher.is_live(at) {
        return Err(VoucherRefusal::VoucherExpired);
    }
    if !fits(voucher, catalogue, product) {
        return Err(VoucherRefusal::WrongProduct);
    }
    Ok(())
}
