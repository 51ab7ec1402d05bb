//! The vouchers that changed rows name.

ghost use Rattle.std.specs.Prelude.{◌≡◌};
ghost use Rattle.std.specs.Option.{option_copied};
ghost use Rattle.model_rows.specs.Conditions.{names};
ghost use Rattle.draft_overlay.specs.Names.{cart_name, entry_name, name_put};

use model_rows::{CartPos, Change, Waiting};

/// The voucher that the row names which a change puts.
pub fn name_put(change: &Change) -> Option<u64>
    ensures { result ≡ name_put change.now }
{
    match change {
        Change::PutCart(row) => row.voucher,
        Change::PutPosition(row) => row.voucher,
        Change::PutWaiting(row) => row.voucher,
        _ => None,
    }
}

/// The voucher that a cart position names.
pub fn cart_name(cart: Option<&CartPos>) -> Option<u64>
    ensures { result ≡ cart_name (option_copied cart.entry) }
{
    match cart {
        None => None,
        Some(cart) => cart.voucher,
    }
}

/// The voucher that a waiting entry names.
pub fn entry_name(entry: Option<&Waiting>) -> Option<u64>
    ensures { result ≡ entry_name (option_copied entry.entry) }
{
    match entry {
        None => None,
        Some(entry) => entry.voucher,
    }
}

/// Whether the name is the voucher's.
pub fn is_name(voucher: u64, name: Option<u64>) -> bool
    ensures { result ≡ names voucher name }
{
    name == Some(voucher)
}
