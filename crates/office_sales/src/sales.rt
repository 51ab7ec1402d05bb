//! Commands on vouchers, carts and orders. A refusal is a reply, with the number that its decision gives it: see `make`, `patch`,
//! `delete` and `import` of decide_vouchers, and `add_position`, `add_many`, `create`, `move_order` and `drop_position` of decide_orders. The error
//! is want of memory alone.

ghost use Rattle.std.specs.Prelude.{IfOk};
ghost use Rattle.office_step.specs.IsStep.{CanBegin, IsStep, IsUndrawnStep};
ghost use Rattle.model_commands.specs.declared.requests.Command.{Command};

use base_values::{Draw, Moment};
use decide_orders::{add_many, add_position, create, drop_position};
use decide_vouchers::decide_voucher;
use decide_vouchers::importing::import;
use model_commands::{
    Entry, Kind, Move, NewCart, NewOrder, NewVoucher, OrderRefusal, Refusal, Reply, Shown,
    VoucherPatch, VoucherRefusal,
};
use office_step::{Book, Drafted, close, open, show_voucher};
use std::alloc::{AllocError, Global};

/// Makes a voucher.
pub fn add_voucher<B: Book>(
    book: &B,
    alloc: Global,
    at: Moment,
    draw: Draw,
    new: &NewVoucher,
) -> Result<(Drafted, Reply), AllocError>
    requires { CanBegin at (B.state book.now) }
    ensures { IfOk result (IsStep (Command.AddVoucher new.now) at draw (B.state book.now)) }
{
    let mut draft = open(book, alloc, at)?;
    let reply = match decide_voucher::make(&mut draft, alloc, draw, new) {
        Ok(row) => Ok(Reply::Made(show_voucher(book, row))),
        Err(VoucherRefusal::Memory) => Err(AllocError),
        Err(refusal) => Ok(Reply::Refused(Kind::AddVoucher, Refusal::Voucher(refusal))),
    };
    close(book, alloc, at, draft, reply)
}

/// Changes a voucher, with whatever draw.
pub fn change_voucher<B: Book>(
    book: &B,
    alloc: Global,
    at: Moment,
    id: u64,
    patch: &VoucherPatch,
) -> Result<(Drafted, Reply), AllocError>
    requires { CanBegin at (B.state book.now) }
    ensures { IfOk result
        (IsUndrawnStep (Command.ChangeVoucher id patch.now) at (B.state book.now)) }
{
    let mut draft = open(book, alloc, at)?;
    let reply = match decide_voucher::patch(&mut draft, alloc, id, patch) {
        Ok(row) => Ok(Reply::Found(show_voucher(book, row))),
        Err(VoucherRefusal::Memory) => Err(AllocError),
        Err(refusal) => Ok(Reply::Refused(Kind::ChangeVoucher, Refusal::Voucher(refusal))),
    };
    close(book, alloc, at, draft, reply)
}

/// Deletes a voucher, with whatever draw.
pub fn drop_voucher<B: Book>(
    book: &B,
    alloc: Global,
    at: Moment,
    id: u64,
) -> Result<(Drafted, Reply), AllocError>
    requires { CanBegin at (B.state book.now) }
    ensures { IfOk result (IsUndrawnStep (Command.DropVoucher id) at (B.state book.now)) }
{
    let mut draft = open(book, alloc, at)?;
    let reply = match decide_voucher::delete(&mut draft, alloc, id) {
        Ok(()) => Ok(Reply::Gone),
        Err(VoucherRefusal::Memory) => Err(AllocError),
        Err(refusal) => Ok(Reply::Refused(Kind::DropVoucher, Refusal::Voucher(refusal))),
    };
    close(book, alloc, at, draft, reply)
}

/// Adds the vouchers of a file.
pub fn import_vouchers<B: Book>(
    book: &B,
    alloc: Global,
    at: Moment,
    draw: Draw,
    rows: &[NewVoucher],
) -> Result<(Drafted, Reply), AllocError>
    requires { CanBegin at (B.state book.now) }
    ensures { IfOk result (IsStep (Command.ImportVouchers rows.now) at draw (B.state book.now)) }
{
    let mut draft = open(book, alloc, at)?;
    let reply = match import(&mut draft, alloc, draw, rows) {
        Ok(verdicts) => Ok(Reply::Imported(verdicts)),
        Err(error) => Err(error),
    };
    close(book, alloc, at, draft, reply)
}

/// Adds a cart position.
pub fn add_cart<B: Book>(
    book: &B,
    alloc: Global,
    at: Moment,
    draw: Draw,
    new: &NewCart,
) -> Result<(Drafted, Reply), AllocError>
    requires { CanBegin at (B.state book.now) }
    ensures { IfOk result (IsStep (Command.AddCart new.now) at draw (B.state book.now)) }
{
    let mut draft = open(book, alloc, at)?;
    let reply = match add_position(&mut draft, alloc, draw, new) {
        Ok(row) => Ok(Reply::Made(Shown::Cart(row))),
        Err(OrderRefusal::Memory) => Err(AllocError),
        Err(refusal) => Ok(Reply::Refused(Kind::AddCart, Refusal::Order(refusal))),
    };
    close(book, alloc, at, draft, reply)
}

/// Adds a cart position for each entry.
pub fn add_carts<B: Book>(
    book: &B,
    alloc: Global,
    at: Moment,
    draw: Draw,
    entries: &[Entry],
) -> Result<(Drafted, Reply), AllocError>
    requires { CanBegin at (B.state book.now) }
    ensures { IfOk result (IsStep (Command.AddCarts entries.now) at draw (B.state book.now)) }
{
    let mut draft = open(book, alloc, at)?;
    let reply = match add_many(&mut draft, alloc, draw, entries) {
        Ok(outcomes) => Ok(Reply::Results(outcomes)),
        Err(OrderRefusal::Memory) => Err(AllocError),
        Err(refusal) => Ok(Reply::Refused(Kind::AddCarts, Refusal::Order(refusal))),
    };
    close(book, alloc, at, draft, reply)
}

/// Makes an order.
pub fn add_order<B: Book>(
    book: &B,
    alloc: Global,
    at: Moment,
    draw: Draw,
    new: &NewOrder,
) -> Result<(Drafted, Reply), AllocError>
    requires { CanBegin at (B.state book.now) }
    ensures { IfOk result (IsStep (Command.AddOrder new.now) at draw (B.state book.now)) }
{
    let mut draft = open(book, alloc, at)?;
    let reply = match create(&mut draft, alloc, draw, new) {
        Ok(rows) => Ok(Reply::Made(Shown::Order(rows))),
        Err(OrderRefusal::Memory) => Err(AllocError),
        Err(refusal) => Ok(Reply::Refused(Kind::AddOrder, Refusal::Order(refusal))),
    };
    close(book, alloc, at, draft, reply)
}

/// Moves an order, with whatever draw.
pub fn move_order<B: Book>(
    book: &B,
    alloc: Global,
    at: Moment,
    number: u64,
    change: Move,
) -> Result<(Drafted, Reply), AllocError>
    requires { CanBegin at (B.state book.now) }
    ensures { IfOk result (IsUndrawnStep (Command.MoveOrder number change) at (B.state book.now)) }
{
    let mut draft = open(book, alloc, at)?;
    let reply = match decide_orders::move_order(&mut draft, alloc, number, change) {
        Ok(rows) => Ok(Reply::Found(Shown::Order(rows))),
        Err(OrderRefusal::Memory) => Err(AllocError),
        Err(refusal) => Ok(Reply::Refused(Kind::MoveOrder, Refusal::Order(refusal))),
    };
    close(book, alloc, at, draft, reply)
}

/// Deletes a cart position, with whatever draw.
pub fn drop_cart<B: Book>(
    book: &B,
    alloc: Global,
    at: Moment,
    id: u64,
) -> Result<(Drafted, Reply), AllocError>
    requires { CanBegin at (B.state book.now) }
    ensures { IfOk result (IsUndrawnStep (Command.DropCart id) at (B.state book.now)) }
{
    let mut draft = open(book, alloc, at)?;
    let reply = match drop_position(&mut draft, alloc, id) {
        Ok(()) => Ok(Reply::Gone),
        Err(OrderRefusal::Memory) => Err(AllocError),
        Err(refusal) => Ok(Reply::Refused(Kind::DropCart, Refusal::Order(refusal))),
    };
    close(book, alloc, at, draft, reply)
}
