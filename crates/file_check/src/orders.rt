//! The tests of orders and their positions.

ghost use Rattle.std.specs.Prelude.{◌↔◌, IsTrue};
ghost use Rattle.model_rows.specs.Ordered.{AllOrdered};
ghost use Rattle.model_invariant.specs.Positions.{AllHavePositions, AreOfOrders, AreWhole, of_order};
ghost use Rattle.model_damage.specs.Tests.{TellsWhether};

use crate::all_have_own_secrets;
use base_values::List;
use book_usage::Book;
use model_invariant::numbers::{are_counted, by_positionid};
use model_rows::{Order, OrderPos};
use std::alloc::{AllocError, Global};

// The most positions of an order.
const MOST_POSITIONS: usize = 500;

// Whether these are 1 to 500 positions, numbered from 1 to their count. More of them aren't sorted.
fn are_whole(alloc: Global, rows: List<OrderPos>) -> Result<bool, AllocError>
    ensures { TellsWhether result (AreWhole rows) }
{
    let count = rows.as_slice().len();
    if count == 0 || MOST_POSITIONS < count {
        return Ok(false);
    }
    let rows = by_positionid(alloc, rows)?;
    let counted = are_counted(rows.as_slice());
    Ok(counted)
}

// Whether an order has such positions.
fn has_positions<B: Book>(alloc: Global, book: &B, order: &Order) -> Result<bool, AllocError>
    ensures { TellsWhether result
        (AreWhole (of_order order.now.id (B.state book.now).lists.positions)) }
{
    let rows = book.positions_of(alloc, order.id)?;
    are_whole(alloc, rows)
}

/// Whether each order has 1 to 500 positions, numbered from 1 to their count, in whatever order of their ids.
pub fn keeps_positions<B: Book>(alloc: Global, book: &B) -> Result<bool, AllocError>
    ensures { let lists = (B.state book.now).lists in
        TellsWhether result (AllHavePositions lists.orders lists.positions) }
{
    let orders = book.orders();
    for order in orders {
        if !has_positions(alloc, book, order)? {
            return Ok(false);
        }
    }
    Ok(true)
}

/// Whether the order of each order position stands.
pub fn all_ordered<B: Book>(book: &B) -> bool
    ensures { IsTrue result ↔ AllOrdered (B.state book.now).lists }
{
    book.positions()
        .iter()
        .all(|row| book.order(row.order).is_some())
}

/// Whether the order of each order position stands, and its secret ends in the order's number and its own there.
pub fn are_of_orders<B: Book>(alloc: Global, book: &B) -> Result<bool, AllocError>
    ensures { let lists = (B.state book.now).lists in
        TellsWhether result (AreOfOrders lists.orders lists.positions) }
{
    let own = all_have_own_secrets(alloc, book.positions())?;
    Ok(all_ordered(book) && own)
}
