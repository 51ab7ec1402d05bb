//! The next ids of the shop's row.

ghost use Rattle.std.specs.Prelude.{◌↔◌, IsTrue};
ghost use Rattle.file_scan.specs.Causes.{HasNextIds};

use file_rows::ShopRow;
use model_catalogue::LAST_ID;
use model_invariant::next_ids::{are_next_ids, is_next_id};

/// Whether each next id of a shop is in range, that of the tokens too.
pub(crate) fn has_next_ids(shop: &ShopRow) -> bool
    ensures { IsTrue result ↔ HasNextIds shop.now }
{
    are_next_ids(&shop.next) && is_next_id(LAST_ID, shop.next_token)
}
