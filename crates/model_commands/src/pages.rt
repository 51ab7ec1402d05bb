//! Pages of lists: 50 rows each, and pages count from 1.

ghost use Rattle.std.specs.Prelude.{◌≡◌, ◌-◌, ◌*◌, length, map, IfOk, IsTrue};
ghost use Rattle.model_commands.specs.Pages.{is_page, page_rows};

use base_tables::{Row, Sparse};
use std::alloc::{AllocError, Global};

/// How many rows a page has at most.
pub const PAGE: usize = 50;

/// Whether a list with so many rows has a page of this number. An empty list has page 1 alone.
pub fn is_page(number: u64, count: usize) -> bool
    ensures { result ≡ is_page number count }
{
    1 <= number && number <= (count.div_ceil(PAGE) as u64).max(1)
}

/// How many rows stand before those of a page.
pub fn rows_before(number: u64, count: usize) -> usize
    requires { IsTrue (is_page number count) }
    ensures { result ≡ (number - 1) * 50 }
{
    let _ = count;
    (number as usize - 1) * PAGE
}

/// The rows of a page.
pub fn page_rows<T>(rows: &[T], number: u64) -> &[T]
    requires { IsTrue (is_page number (length rows.now)) }
    ensures { result.now ≡ page_rows number rows.now }
{
    let rest = &rows[rows_before(number, rows.len())..];
    &rest[..rest.len().min(PAGE)]
}

/// The rows of a page, of rows that come and go. Those before the page are passed one after another.
pub fn sparse_page_rows<'r, R: Row + Drop>(
    alloc: Global,
    rows: &'r Sparse<R>,
    number: u64,
) -> Result<Vec<&'r R>, AllocError>
    requires { IsTrue (is_page number (length rows.now.rows)) }
    ensures { IfOk result (λ page. map (λ r. r.now) page.items ≡ page_rows number rows.now.rows) }
{
    rows.iter()
        .skip(rows_before(number, rows.len()))
        .take(PAGE)
        .collect(alloc)
}

/// Each of these rows, by reference.
pub fn references<'r, R>(alloc: Global, rows: &'r [R]) -> Result<Vec<&'r R>, AllocError>
    ensures { IfOk result (λ refs. map (λ r. r.now) refs.items ≡ rows.now) }
{
    rows.iter().collect(alloc)
}
