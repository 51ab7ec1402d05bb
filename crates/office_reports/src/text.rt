//! What was sold, as a text.

ghost use Rattle.std.specs.Prelude.{◌*◌, ◌≡◌, ◌≤◌, ◌++◌, OnOk, IfOk, length};
ghost use Rattle.model_catalogue.specs.Limits.{most_rows};
ghost use Rattle.model_invariant.specs.Sound.{IsSound};
ghost use Rattle.office_reports.specs.Noted.{AreFew, IsFew};
ghost use Rattle.office_reports.specs.SalesText.{sales_columns, sales_line, sales_text, total_line, total_of, with_sales};
ghost use Rattle.office_reports.specs.ItemLines.{lines_of};

use crate::columns::{append_column, append_first, append_number};
use crate::sales::{ItemSales, Sales, all_sales, nothing};
use base_values::{Body, total_text};
use book_usage::Book;
use model_catalogue::Item;
use std::alloc::{AllocError, Global};

/// What was sold, as a text: a line for each item, by id, and one for all. A line has the item's number in six columns; behind a blank each,
/// the positions in paid, pending, expired and cancelled orders in seven, and what was paid in fourteen; and behind two blanks its name.
pub fn sales_text<B: Book>(book: &B, alloc: Global) -> Result<Body, AllocError>
    requires { IsSound (B.state book.now) }
    ensures { IfOk result (λ text. text ≡ sales_text (B.state book.now).lists) }
{
    let sales = all_sales(book, alloc)?;
    let mut text = Vec::new(alloc);
    append_lines(&mut text, alloc, book.catalogue().items(), &sales)?;
    append_total(&mut text, alloc, total(&sales))?;
    Ok(Body::new(text))
}

// Appends the columns of a line.
fn append_columns(text: &mut Vec<u8>, alloc: Global, sales: &Sales) -> Result<(), AllocError>
    ensures { OnOk result (text.new.items ≡ text.old.items ++ sales_columns sales.now) }
{
    append_number(text, 7, sales.paid)?;
    append_number(text, 7, sales.pending)?;
    append_number(text, 7, sales.expired)?;
    append_number(text, 7, sales.cancelled)?;
    let amount = total_text(alloc, sales.amount)?;
    append_column(text, 14, amount.as_bytes())
}

// Appends the line of an item.
fn append_line(
    text: &mut Vec<u8>,
    alloc: Global,
    item: &Item,
    sales: &Sales,
) -> Result<(), AllocError>
    ensures { OnOk result (text.new.items ≡ text.old.items ++ sales_line item.now sales.now) }
{
    append_first(text, 6, item.id)?;
    append_columns(text, alloc, sales)?;
    text.extend_from_slice(b"  ")?;
    text.extend_from_slice(item.name.as_str().as_bytes())?;
    text.extend_from_slice(b"\n")
}

// Appends the line of each item.
fn append_lines(
    text: &mut Vec<u8>,
    alloc: Global,
    items: &[Item],
    rows: &[ItemSales],
) -> Result<(), AllocError>
    requires { length items.now ≡ length rows.now }
    ensures { OnOk result (text.new.items ≡ text.old.items ++ lines_of items.now rows.now) }
{
    for at in 0..rows.len() {
        append_line(text, alloc, &items[at], &rows[at].sales)?;
    }
    Ok(())
}

// Appends the line of all items.
fn append_total(text: &mut Vec<u8>, alloc: Global, sales: Sales) -> Result<(), AllocError>
    ensures { OnOk result (text.new.items ≡ text.old.items ++ total_line sales) }
{
    text.extend_from_slice(b" total")?;
    append_columns(text, alloc, &sales)?;
    text.extend_from_slice(b"\n")
}

// What was sold of all items.
fn total(rows: &[ItemSales]) -> Sales
    requires few { AreFew most_rows rows.now }
    requires rows { length rows.now ≤ most_rows }
    ensures { result ≡ total_of rows.now }
{
    let mut total = nothing();
    for row in rows {
        total = with_sales(total, row.sales);
    }
    total
}

// What was sold of some items and of another one.
fn with_sales(some: Sales, more: Sales) -> Sales
    requires some { IsFew (most_rows * most_rows) some }
    requires more { IsFew most_rows more }
    ensures { result ≡ with_sales some more }
{
    Sales {
        paid: some.paid + more.paid,
        pending: some.pending + more.pending,
        expired: some.expired + more.expired,
        cancelled: some.cancelled + more.cancelled,
        amount: some.amount + more.amount,
    }
}
