//! The tests of what rows name in the catalogue.

ghost use Rattle.std.specs.Prelude.{◌≡◌, ◌↔◌, IsTrue, true};
ghost use Rattle.std.specs.List.{AllByRecursion};
ghost use Rattle.model_invariant.specs.Sent.{voucher_stands, AllSent};
ghost use Rattle.model_invariant.specs.Varied.{is_of_varied, is_named_as_sold, IsProduct, AllVaried, AllProducts};
ghost use Rattle.model_rows.specs.Fits.{is_fit, AllFit};

use book_usage::rules::fits;
use book_usage::{Book, Catalogue};
use decide_catalogue::targets::variation_stands;
use model_catalogue::{Product, Variation};

// Whether a variation's item stands, and is sold by variation.
fn is_of_varied(catalogue: &Catalogue, row: &Variation) -> bool
    ensures { result ≡ is_of_varied catalogue.now.lists.items row.now }
{
    match catalogue.item(row.item) {
        None => false,
        Some(item) => item.varied,
    }
}

/// Whether each variation is of an item that stands and is sold by variation.
pub fn all_varied<B: Book>(book: &B) -> bool
    ensures { IsTrue result ↔ AllVaried (B.state book.now).lists }
{
    let catalogue = book.catalogue();
    let variations = catalogue.variations();
    variations.iter().all(|row| is_of_varied(catalogue, row))
}

// Whether a product's item stands, and the product names a variation exactly where the item is sold by variation.
fn is_named_as_sold(catalogue: &Catalogue, product: Product) -> bool
    ensures { result ≡ is_named_as_sold catalogue.now.lists.items product }
{
    match catalogue.item(product.item) {
        None => false,
        Some(item) if item.varied => product.variation.is_some(),
        Some(_) => product.variation.is_none(),
    }
}

// Whether that is so, and the variation stands and is of the item.
fn is_product(catalogue: &Catalogue, product: Product) -> bool
    ensures { IsTrue result ↔ IsProduct catalogue.now.lists product }
{
    is_named_as_sold(catalogue, product)
        && variation_stands(catalogue, Some(product.item), product.variation)
}

// Whether it is so of the product of each cart position.
fn carts_have_products<B: Book>(book: &B) -> bool
    ensures { let lists = (B.state book.now).lists in
        IsTrue result ↔ AllByRecursion (λ c. IsProduct lists.catalogue c.product) lists.carts }
{
    for row in book.carts().iter() {
        if !is_product(book.catalogue(), row.product) {
            return false;
        }
    }
    true
}

// Whether it is so of the product of each order position.
fn positions_have_products<B: Book>(book: &B) -> bool
    ensures { let lists = (B.state book.now).lists in
        IsTrue result ↔ AllByRecursion (λ p. IsProduct lists.catalogue p.product) lists.positions }
{
    let catalogue = book.catalogue();
    book.positions()
        .iter()
        .all(|row| is_product(catalogue, row.product))
}

// Whether it is so of the product of each waiting entry.
fn entries_have_products<B: Book>(book: &B) -> bool
    ensures { let lists = (B.state book.now).lists in
        IsTrue result ↔ AllByRecursion (λ w. IsProduct lists.catalogue w.product) lists.waiting }
{
    for row in book.waiting().iter() {
        if !is_product(book.catalogue(), row.product) {
            return false;
        }
    }
    true
}

/// Whether the product of each cart position, order position and waiting entry is one: its item stands, and it names a
/// variation, of that item, exactly where the item is sold by variation.
pub fn all_products<B: Book>(book: &B) -> bool
    ensures { IsTrue result ↔ AllProducts (B.state book.now).lists }
{
    carts_have_products(book) && positions_have_products(book) && entries_have_products(book)
}

// Whether the voucher that is named stands.
fn voucher_stands<B: Book>(book: &B, voucher: Option<u64>) -> bool
    ensures { result ≡ voucher_stands (B.state book.now).lists.vouchers voucher }
{
    match voucher {
        None => true,
        Some(id) => book.voucher(id).is_some(),
    }
}

/// Whether the voucher that a waiting entry names stands.
pub fn all_sent<B: Book>(book: &B) -> bool
    ensures { IsTrue result ↔ AllSent (B.state book.now).lists }
{
    for row in book.waiting().iter() {
        if !voucher_stands(book, row.voucher) {
            return false;
        }
    }
    true
}

// Whether a row names no voucher, or one that stands and is for the row's product.
fn is_fit<B: Book>(book: &B, product: Product, voucher: Option<u64>) -> bool
    ensures { result ≡ is_fit (B.state book.now).lists product voucher }
{
    let Some(id) = voucher else {
        return true;
    };
    match book.voucher(id) {
        None => false,
        Some(row) => fits(row, book.catalogue(), product),
    }
}

// Whether it is so of each cart position.
fn carts_fit<B: Book>(book: &B) -> bool
    ensures { let lists = (B.state book.now).lists in
        IsTrue result ↔ AllByRecursion (λ c. is_fit lists c.product c.voucher ≡ true) lists.carts }
{
    for row in book.carts().iter() {
        if !is_fit(book, row.product, row.voucher) {
            return false;
        }
    }
    true
}

/// Whether each cart position and each order position names no voucher, or one that stands and is for its product.
pub fn all_fit<B: Book>(book: &B) -> bool
    ensures { IsTrue result ↔ AllFit (B.state book.now).lists }
{
    carts_fit(book)
        && book
            .positions()
            .iter()
            .all(|row| is_fit(book, row.product, row.voucher))
}
