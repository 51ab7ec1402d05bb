//! The test of headroom.

ghost use Rattle.std.specs.Prelude.{◌↔◌, IsTrue};
ghost use Rattle.std.specs.List.{AllByRecursion};
ghost use Rattle.model_rows.specs.Headroom.{AllHaveHeadroom};
ghost use Rattle.file_check.specs.Room.{HasRoom};

use book_usage::Book;
use model_rows::Voucher;

// Whether the voucher's uses in orders and in live carts are no more than it may have.
#[tactic(auto, unfolding(crate::specs::Room::HasRoom))]
fn has_room<B: Book>(book: &B, row: &Voucher) -> bool
    ensures { IsTrue result ↔ HasRoom (B.state book.now) row.now }
{
    let used = book.redeemed(row.id) + book.held(row.id, book.moment());
    used <= u64::from(row.max_usages.get())
}

// Whether it is so of each voucher.
fn all_have_room<B: Book>(book: &B) -> bool
    ensures { let state = B.state book.now in
        IsTrue result ↔ AllByRecursion (HasRoom state) state.lists.vouchers }
{
    let vouchers = book.vouchers();
    for row in vouchers {
        if !has_room(book, row) {
            return false;
        }
    }
    true
}

/// Whether no voucher is named more often than it may be used, at the book's moment.
#[tactic(auto, unfolding(crate::specs::Room::HasRoom))]
pub fn keeps_headroom<B: Book>(book: &B) -> bool
    ensures { IsTrue result ↔ AllHaveHeadroom (B.state book.now).moment (B.state book.now).lists }
{
    all_have_room(book)
}
