//! The positions that belong to a check-in list.

ghost use Rattle.std.specs.Prelude.{◌≡◌, IfOk, List, ◌∷◌, length};
ghost use Rattle.model_rows.specs.declared.rows.OrderPos.{OrderPos};
ghost use Rattle.decide_door.specs.Belongs.{is_for, includes, belongs, belonging};
ghost use Rattle.decide_door.specs.Status.{ticket_of, tickets_page};
ghost use Rattle.decide_door.specs.Listing.{tickets_more};

use book_usage::Book;
use model_commands::ListedTicket;
use model_rows::{CheckinList, OrderPos, Status};
use std::alloc::{AllocError, Global};

/// Whether the list is for this item: it is for all, or names it.
pub fn is_for(list: &CheckinList, item: u64) -> bool
    ensures { result ≡ is_for list.now item }
{
    list.all_products || list.limit_products.has(item)
}

/// Whether the position belongs to the list: it is for the position's item, and the order is paid, or pending where
/// the list includes pending ones.
#[tactic(auto, unfolding(crate::specs::Belongs::belongs))]
pub fn belongs<B: Book>(book: &B, list: &CheckinList, position: &OrderPos) -> bool
    ensures { result ≡ belongs list.now (B.state book.now).lists position.now }
{
    if !is_for(list, position.product.item) {
        return false;
    }
    match book.order(position.order) {
        None => false,
        Some(order) => includes(list, order.status),
    }
}

// Whether an order of this status counts.
fn includes(list: &CheckinList, status: Status) -> bool
    ensures { result ≡ includes list.now status }
{
    status.is_paid() || (status.is_pending() && list.include_pending)
}

/// How many positions belong to the list.
pub fn position_count<B: Book>(book: &B, list: &CheckinList) -> usize
    ensures { result ≡ length (belonging list.now (B.state book.now).lists) }
{
    book.positions()
        .iter()
        .filter(|p| belongs(book, list, p))
        .count()
}

/// The positions that belong to the list, by id, without the first `skip` of them and at most `most`, with their
/// check-ins by the list, by id. `Err` where there is no memory for them.
pub fn positions<B: Book>(
    book: &B,
    alloc: Global,
    list: &CheckinList,
    skip: usize,
    most: usize,
) -> Result<Vec<ListedTicket>, AllocError>
    ensures { IfOk result (λ rows.
        rows.items ≡ tickets_page skip most list.now (B.state book.now).lists) }
{
    let mut skip = skip;
    let mut rows = Vec::new(alloc);
    for position in book.positions() {
        skip = list_one(book, alloc, list, position, skip, most, &mut rows)?;
    }
    Ok(rows)
}

// Adds a position to the tickets, where it belongs to the list, none is left out any more and not all are there yet.
// Answers how many are left out after it.
fn list_one<B: Book>(
    book: &B,
    alloc: Global,
    list: &CheckinList,
    position: &OrderPos,
    skip: usize,
    most: usize,
    rows: &mut Vec<ListedTicket>,
) -> Result<usize, AllocError>
    ensures { IfOk result (λ left. (others : List OrderPos) →
        tickets_more list.now (B.state book.now).lists rows.new.items left most others
        ≡ tickets_more list.now (B.state book.now).lists rows.old.items skip most
        (position.now ∷ others)) }
{
    if !belongs(book, list, position) {
        return Ok(skip);
    }
    if skip > 0 {
        return Ok(skip - 1);
    }
    if rows.len() < most {
        rows.push(ticket_of(book, alloc, list, position)?)?;
    }
    Ok(0)
}

/// The position with its check-ins by the list, by id. `Err` where there is no memory for them.
#[tactic(auto, unfolding(crate::specs::Status::ticket_of))]
pub fn ticket_of<B: Book>(
    book: &B,
    alloc: Global,
    list: &CheckinList,
    position: &OrderPos,
) -> Result<ListedTicket, AllocError>
    ensures { IfOk result (λ t. t ≡ ticket_of list.now (B.state book.now).lists position.now) }
{
    Ok(ListedTicket {
        position: position.copy(alloc)?,
        checkins: book.checkins_of(alloc, list.id, position.id)?,
    })
}
