//! What was sold of each item.

ghost use Rattle.std.specs.Prelude.{◌≡◌, ◌≤◌, IfOk, length, map};
ghost use Rattle.base_values.specs.Money.{last_cents};
ghost use Rattle.base_tables.specs.Tables.{AreInOrder};
ghost use Rattle.model_catalogue.specs.Limits.{most_rows};
ghost use Rattle.model_invariant.specs.Sound.{IsSound};
ghost use Rattle.office_reports.specs.Sold.{all_sales, nothing};
ghost use Rattle.office_reports.specs.Noted.{AreFew, IsFew, sale_noted, noted_all, noted_next, unsold, with_sale};

use base_tables::{Row, place_of};
use book_usage::Book;
use model_catalogue::Item;
use model_rows::{OrderPos, Status};
use std::alloc::{AllocError, Global};

/// How many positions are in orders of each status, and what was paid for those in paid ones, in cents.
#[derive(Clone, Copy, PartialEq, Eq)]
pub(crate) struct Sales {
    pub paid: u64,
    pub pending: u64,
    pub expired: u64,
    pub cancelled: u64,
    pub amount: u128,
}

/// What was sold of an item.
#[derive(Clone, Copy, PartialEq, Eq)]
pub(crate) struct ItemSales {
    pub item: u64,
    pub sales: Sales,
}

impl Row for ItemSales {
    ghost key = { λ s. s.item };

    fn id(&self) -> u64 {
        self.item
    }
}

/// What was sold of each item, by id, of inactive ones and of ones that were never sold too. It goes once over the positions. `Err` where
/// there is no memory for a row for each item.
pub(crate) fn all_sales<B: Book>(book: &B, alloc: Global) -> Result<Vec<ItemSales>, AllocError>
    requires { IsSound (B.state book.now) }
    ensures sales { IfOk result (λ sales. sales.items ≡ all_sales (B.state book.now).lists) }
    ensures few { IfOk result (λ sales. AreFew most_rows sales.items) }
{
    book.recall_invariant();
    let mut sales = all_unsold(book.catalogue().items(), alloc)?;
    note_all(&mut sales, book);
    Ok(sales)
}

// The items, before any position.
fn all_unsold(items: &[Item], alloc: Global) -> Result<Vec<ItemSales>, AllocError>
    ensures { IfOk result (λ sales. sales.items ≡ map unsold items.now) }
{
    items.iter().map(unsold).collect(alloc)
}

// An item, before any position.
fn unsold(item: &Item) -> ItemSales
    ensures { result ≡ unsold item.now }
{
    ItemSales {
        item: item.id,
        sales: nothing(),
    }
}

/// Nothing was sold.
pub(crate) fn nothing() -> Sales
    ensures { result ≡ nothing }
{
    Sales {
        paid: 0,
        pending: 0,
        expired: 0,
        cancelled: 0,
        amount: 0,
    }
}

// Notes each position at its item.
fn note_all<B: Book>(sales: &mut Vec<ItemSales>, book: &B)
    requires order { AreInOrder (λ s. s.item) sales.old.items }
    requires few { AreFew 0 sales.old.items }
    requires rows { length (B.state book.now).lists.positions ≤ most_rows }
    ensures noted { let lists = (B.state book.now).lists in
        sales.new.items ≡ map (noted_all lists lists.positions) sales.old.items }
    ensures few { AreFew most_rows sales.new.items }
{
    book.recall_invariant();
    for position in book.positions() {
        note_position(sales, book, position);
    }
}

// Notes a position at its item, where its order stands.
fn note_position<B: Book>(sales: &mut Vec<ItemSales>, book: &B, position: &OrderPos)
    requires order { AreInOrder (λ s. s.item) sales.old.items }
    requires few { AreFew most_rows sales.old.items }
    ensures noted { sales.new.items
        ≡ map (noted_next (B.state book.now).lists position.now) sales.old.items }
    ensures price { position.now.price ≤ last_cents }
{
    let price = position.price.get();
    if let Some(order) = book.order(position.order) {
        note(sales, order.status, position.product.item, price);
    }
}

// Notes a position of an item, where that is among these.
fn note(sales: &mut Vec<ItemSales>, status: Status, item: u64, price: u64)
    requires order { AreInOrder (λ s. s.item) sales.old.items }
    requires few { AreFew most_rows sales.old.items }
    requires price { price ≤ last_cents }
    ensures { sales.new.items ≡ map (sale_noted status item price) sales.old.items }
{
    if let Ok(at) = place_of(sales, item) {
        let row = sales[at];
        sales[at] = ItemSales {
            item: row.item,
            sales: with_sale(row.sales, status, price),
        };
    }
}

// With one more position, in an order of this status.
fn with_sale(sales: Sales, status: Status, price: u64) -> Sales
    requires few { IsFew most_rows sales }
    requires price { price ≤ last_cents }
    ensures { result ≡ with_sale status price sales }
{
    match status {
        Status::Paid => Sales {
            paid: sales.paid + 1,
            amount: sales.amount + u128::from(price),
            ..sales
        },
        Status::Pending => Sales {
            pending: sales.pending + 1,
            ..sales
        },
        Status::Expired => Sales {
            expired: sales.expired + 1,
            ..sales
        },
        Status::Cancelled => Sales {
            cancelled: sales.cancelled + 1,
            ..sales
        },
    }
}
