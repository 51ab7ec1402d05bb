//! What is done with each command.

ghost use Rattle.std.specs.Prelude.{IfOk};
ghost use Rattle.office_other.specs.Machine.{CanBegin, IsStep};

use base_values::{Draw, Moment};
use book_usage::Book;
use model_commands::{Command, Reply};
use office_other::{Drafted, catalogue, doors, waiting};
use office_sales::sales;
use std::alloc::{AllocError, Global};

/// What a command is answered over a book that is sound, and the changes that it makes.
pub(crate) fn decide_over<B: Book>(
    book: &B,
    alloc: Global,
    at: Moment,
    draw: Draw,
    command: &Command,
) -> Result<(Drafted, Reply), AllocError>
    requires { CanBegin at (B.state book.now) }
    ensures { IfOk result (IsStep command.now at draw (B.state book.now)) }
{
    match command {
        Command::AddItem(new) => catalogue::add_item(book, alloc, new),
        Command::ChangeItem(id, patch) => catalogue::change_item(book, alloc, *id, patch),
        Command::AddVariation(item, new) => catalogue::add_variation(book, alloc, *item, new),
        Command::AddQuota(new) => catalogue::add_quota(book, alloc, new),
        Command::ResizeQuota(id, patch) => catalogue::resize_quota(book, alloc, *id, *patch),
        Command::AddVoucher(new) => sales::add_voucher(book, alloc, at, draw, new),
        Command::ChangeVoucher(id, patch) => sales::change_voucher(book, alloc, at, *id, patch),
        Command::DropVoucher(id) => sales::drop_voucher(book, alloc, at, *id),
        Command::ImportVouchers(rows) => {
            sales::import_vouchers(book, alloc, at, draw, rows.as_slice())
        }
        Command::AddCart(new) => sales::add_cart(book, alloc, at, draw, new),
        Command::AddCarts(entries) => {
            sales::add_carts(book, alloc, at, draw, entries.as_slice())
        }
        Command::DropCart(id) => sales::drop_cart(book, alloc, at, *id),
        Command::AddOrder(new) => sales::add_order(book, alloc, at, draw, new),
        Command::MoveOrder(number, change) => {
            sales::move_order(book, alloc, at, *number, *change)
        }
        Command::AddWaiting(new) => waiting::add_waiting(book, alloc, at, new),
        Command::ChangeWaiting(id, patch) => {
            waiting::change_waiting(book, alloc, at, *id, *patch)
        }
        Command::DropWaiting(id) => waiting::drop_waiting(book, alloc, at, *id),
        Command::SendVoucher(id) => waiting::send_voucher(book, alloc, at, draw, *id),
        Command::Periodic => waiting::work(book, alloc, at, draw),
        Command::AddCheckinList(new) => doors::add_checkin_list(book, alloc, at, new),
        Command::Redeem(list, ticket, scan) => doors::redeem(book, alloc, at, *list, ticket, scan),
    }
}
