//! A book is filled with the rows of a file.

ghost use Rattle.std.specs.Prelude.{◌≡◌, ◌≤◌, IfOk, OnOk};
ghost use Rattle.model_rows.specs.Lists.{no_rows};
ghost use Rattle.model_invariant.specs.Ids.{AllNumbered};
ghost use Rattle.model_damage.specs.Told.{lists_of, state_of};

use crate::put::put_rows;
use base_values::{Moment, Slug};
use book_usage::Book;
use model_catalogue::{Item, Quota, Variation};
use model_damage::FileRows;
use model_rows::{
    CartPos, Checkin, CheckinList, NextIds, Order, OrderPos, QuotaCount, Voucher, VoucherCount,
    Waiting,
};
use std::alloc::{AllocError, Global};

/// What a file tells beside the rows of its office: whose shop it is, and the counts of its quotas and vouchers.
#[derive(Drop)]
pub struct Aside {
    pub organizer: Slug,
    pub event: Slug,
    pub used: Vec<QuotaCount>,
    pub redeemed: Vec<VoucherCount>,
}

/// Fills a book that is empty with rows whose ids rise and are below the next ones. What stands beside them is given back.
/// Refused where memory is; the book then has some of the rows.
/// A book that keeps counts counts all again behind each table, so those with many rows that count come last.
pub fn fill<B: Book>(alloc: Global, book: &mut B, rows: FileRows) -> Result<Aside, AllocError>
    requires empty { (B.state book.old).lists ≡ no_rows }
    requires moment { (B.state book.old).moment ≤ rows.moment }
    requires ids { AllNumbered rows.next (lists_of rows) }
    ensures state { OnOk result (B.state book.new ≡ state_of rows) }
    ensures names { IfOk result (λ a. (a.organizer ≡ rows.organizer) × (a.event ≡ rows.event)) }
    ensures counts { IfOk result (λ a. (a.used ≡ rows.used) × (a.redeemed ≡ rows.redeemed)) }
{
    let next = rows.next;
    let at = rows.moment;
    put_rows::<B, Item>(alloc, book, rows.items, next, at)?;
    put_rows::<B, Variation>(alloc, book, rows.variations, next, at)?;
    put_rows::<B, Quota>(alloc, book, rows.quotas, next, at)?;
    put_rows::<B, Order>(alloc, book, rows.orders, next, at)?;
    put_rows::<B, CheckinList>(alloc, book, rows.checkin_lists, next, at)?;
    put_rows::<B, Checkin>(alloc, book, rows.checkins, next, at)?;
    put_rows::<B, Waiting>(alloc, book, rows.waiting, next, at)?;
    put_rows::<B, CartPos>(alloc, book, rows.carts, next, at)?;
    put_rows::<B, Voucher>(alloc, book, rows.vouchers, next, at)?;
    put_rows::<B, OrderPos>(alloc, book, rows.positions, next, at)?;
    Ok(Aside {
        organizer: rows.organizer,
        event: rows.event,
        used: rows.used,
        redeemed: rows.redeemed,
    })
}
