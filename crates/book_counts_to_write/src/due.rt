//! The quotas of which less or more may be used since a book's moment, because something came due.

ghost use Rattle.std.specs.Prelude.{◌≡◌, ◌≤◌, IfOk};
ghost use Rattle.base_tables.specs.Rising.{rising};
ghost use Rattle.model_catalogue.specs.Kept.{quotas_of};
ghost use Rattle.book_counts_to_write.specs.Due.{ids_naming, quotas_sold, hit_by, quotas_hit, due_quotas};
ghost use Rattle.book_counts_to_write.specs.Told.{Adds, AddsEach, told_if};

use base_tables::Ids;
use base_values::Moment;
use book_usage::{Book, Dues};
use model_catalogue::Product;
use model_rows::Voucher;
use std::alloc::{AllocError, Global};

/// The quotas that are reached by what came due of a book since its moment, and before this one: by cart positions, by
/// vouchers, and by cart positions that name one of these vouchers, since it covers them no longer.
pub fn due_quotas<B: Dues>(book: &B, alloc: Global, at: Moment) -> Result<Ids, AllocError>
    requires { (B.state book.now).moment ≤ at }
    ensures { IfOk result (λ ids. ids
        ≡ rising (due_quotas (B.state book.now).moment at (B.state book.now).lists)) }
{
    let vouchers = book.due_vouchers(alloc, at)?;
    let mut carts = book.due_carts(alloc, at)?;
    add_naming_each(book, alloc, &vouchers, &mut carts)?;
    let mut quotas = Vec::new(alloc);
    add_sold_each(book, alloc, &carts, &mut quotas)?;
    add_hit_each(book, alloc, &vouchers, &mut quotas)?;
    Ok(Ids::sorted(quotas))
}

// Adds the cart positions that name one of these vouchers.
fn add_naming_each<B: Book>(
    book: &B,
    alloc: Global,
    vouchers: &[u64],
    ids: &mut Vec<u64>,
) -> Result<(), AllocError>
    ensures { AddsEach result ids.old ids.new (ids_naming (B.state book.now).lists) vouchers.now }
{
    for voucher in vouchers {
        add_naming(book, alloc, *voucher, ids)?;
    }
    Ok(())
}

// Adds those that name one of them.
fn add_naming<B: Book>(
    book: &B,
    alloc: Global,
    voucher: u64,
    ids: &mut Vec<u64>,
) -> Result<(), AllocError>
    ensures { Adds result ids.old ids.new (ids_naming (B.state book.now).lists voucher) }
{
    let more = book.carts_naming(alloc, voucher)?;
    Ok(ids.extend_from_slice(&more)?)
}

// Adds the quotas that have the products of these cart positions.
fn add_sold_each<B: Book>(
    book: &B,
    alloc: Global,
    carts: &[u64],
    quotas: &mut Vec<u64>,
) -> Result<(), AllocError>
    ensures { AddsEach result quotas.old quotas.new
        (quotas_sold (B.state book.now).lists) carts.now }
{
    for id in carts {
        add_sold(book, alloc, *id, quotas)?;
    }
    Ok(())
}

// Adds those of one of them, if it stands.
fn add_sold<B: Book>(
    book: &B,
    alloc: Global,
    id: u64,
    quotas: &mut Vec<u64>,
) -> Result<(), AllocError>
    ensures { Adds result quotas.old quotas.new (quotas_sold (B.state book.now).lists id) }
{
    match book.cart(id) {
        None => Ok(()),
        Some(cart) => add_quotas_of(book, alloc, Some(cart.product), quotas),
    }
}

// Adds the quotas of which these vouchers may block places.
fn add_hit_each<B: Book>(
    book: &B,
    alloc: Global,
    vouchers: &[u64],
    quotas: &mut Vec<u64>,
) -> Result<(), AllocError>
    ensures { AddsEach result quotas.old quotas.new
        (quotas_hit (B.state book.now).lists) vouchers.now }
{
    for id in vouchers {
        add_hit(book, alloc, *id, quotas)?;
    }
    Ok(())
}

// Adds those of one of them, if it stands.
fn add_hit<B: Book>(
    book: &B,
    alloc: Global,
    id: u64,
    quotas: &mut Vec<u64>,
) -> Result<(), AllocError>
    ensures { Adds result quotas.old quotas.new (quotas_hit (B.state book.now).lists id) }
{
    match book.voucher(id) {
        None => Ok(()),
        Some(voucher) => add_hit_by(book, alloc, voucher, quotas),
    }
}

// Adds the quotas of which a voucher may block places: the one that it names, or else those that have its product.
fn add_hit_by<B: Book>(
    book: &B,
    alloc: Global,
    voucher: &Voucher,
    quotas: &mut Vec<u64>,
) -> Result<(), AllocError>
    ensures { Adds result quotas.old quotas.new
        (hit_by (B.state book.now).lists.catalogue voucher.now) }
{
    match voucher.quota {
        Some(id) => Ok(quotas.push(id)?),
        None => {
            let product = voucher.item.map(|item| Product {
                item,
                variation: voucher.variation,
            });
            add_quotas_of(book, alloc, product, quotas)
        }
    }
}

// Adds the quotas that have a product, if there is one.
fn add_quotas_of<B: Book>(
    book: &B,
    alloc: Global,
    product: Option<Product>,
    quotas: &mut Vec<u64>,
) -> Result<(), AllocError>
    ensures { Adds result quotas.old quotas.new
        (told_if (λ p. quotas_of p (B.state book.now).lists.catalogue) product) }
{
    match product {
        None => Ok(()),
        Some(product) => {
            let found = book.catalogue().quotas_of(alloc, product)?;
            quotas.extend_from_slice(&found)?;
            Ok(())
        }
    }
}
