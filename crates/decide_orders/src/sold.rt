//! What is sold at what price.

ghost use Rattle.std.specs.Prelude.{◌≡◌, Ok, Err, IfOk, IfErr, option_map};
ghost use Rattle.std.specs.Option.{option_copied};
ghost use Rattle.draft_changes.specs.DraftState.{now};
ghost use Rattle.decide_orders.specs.Sold.{product_for_sale, voucher_asked, price_with, discount_of, sold_for};

use crate::budgets::left_after;
use crate::usability::usable;
use base_values::{Cents, Text, price_within};
use book_usage::Book;
use draft_changes::Draft;
use model_catalogue::{CatalogueRefusal, Product};
use model_commands::{Asked, VoucherRefusal};
use model_rows::{OrderPos, Voucher};

/// What is sold: a product, at a price, with a voucher or without one. Its base price is what it costs without a voucher.
#[derive(Clone, Copy, PartialEq, Eq)]
pub struct Sold {
    pub product: Product,
    pub base: Cents,
    pub price: Cents,
    pub voucher: Option<u64>,
}

impl Sold {
    /// With a voucher, how far the price is below the base price, at least 0; without one 0.
    pub fn discount(&self) -> Cents
        ensures { result ≡ discount_of self.now }
    {
        match self.voucher {
            None => Cents::new(0),
            Some(_) => Cents::new(self.base.get().saturating_sub(self.price.get())),
        }
    }
}

/// What is sold for what is asked, after these rows of the same request, which the draft doesn't have yet. The price that it
/// computes is within what they leave of the voucher's budget.
/// Refusals, in this order: 10 `NoItem`, 11 `NoVariation`, 12 `NeedsVariation`, 15 `Inactive`, 18 `NotSold`;
/// 23 `NoVoucher`, 24 `VoucherExpired`, 26 `WrongProduct`.
#[tactic(auto, unfolding(crate::specs::Sold::sold_for))]
pub fn sold_for<B: Book>(
    draft: &Draft<'_, B>,
    asked: &Asked,
    before: &[OrderPos],
) -> Result<Sold, VoucherRefusal>
    ensures { result ≡ sold_for asked.now before.now (now draft.now) }
{
    let product = product_for_sale(draft, asked)?;
    let voucher = voucher_asked(draft, asked.voucher.as_ref(), product)?;
    let Some(base) = draft.rows().catalogue().base_price(product) else {
        return Err(VoucherRefusal::Catalogue(CatalogueRefusal::NoItem));
    };
    let computed = price_with(draft, before, voucher, base);
    Ok(Sold {
        product,
        base,
        price: asked.price.unwrap_or(computed),
        voucher: id_of(voucher),
    })
}

// The product that is asked for, where it may be sold.
fn product_for_sale<B: Book>(
    draft: &Draft<'_, B>,
    asked: &Asked,
) -> Result<Product, CatalogueRefusal>
    ensures { result ≡ product_for_sale asked.now.item asked.now.variation
        (now draft.now).lists.catalogue }
{
    let product = draft
        .rows()
        .catalogue()
        .product(asked.item, asked.variation)?;
    if !draft.rows().catalogue().is_active(product) {
        return Err(CatalogueRefusal::Inactive);
    }
    if !draft.rows().catalogue().is_sold(product) {
        return Err(CatalogueRefusal::NotSold);
    }
    Ok(product)
}

// The voucher of the code that is given, where it can be used for the product.
#[tactic(auto, unfolding(crate::specs::Sold::voucher_asked))]
fn voucher_asked<'d, B: Book>(
    draft: &'d Draft<'_, B>,
    code: Option<&Text>,
    product: Product,
) -> Result<Option<&'d Voucher>, VoucherRefusal>
    ensures done { IfOk result (λ v.
        voucher_asked (option_copied code.entry) (now draft.now) product ≡ Ok (option_copied v)) }
    ensures refused { IfErr result (λ e.
        voucher_asked (option_copied code.entry) (now draft.now) product ≡ Err e) }
{
    let Some(code) = code else {
        return Ok(None);
    };
    let Some(voucher) = draft.rows().voucher_of(code.as_str()) else {
        return Err(VoucherRefusal::NoVoucher);
    };
    usable(voucher, draft.rows().catalogue(), product, draft.moment())?;
    Ok(Some(voucher))
}

// The id of a voucher, if there is one.
fn id_of(voucher: Option<&Voucher>) -> Option<u64>
    ensures { result ≡ option_map (λ v. v.id) (option_copied voucher.entry) }
{
    match voucher {
        None => None,
        Some(voucher) => Some(voucher.id),
    }
}

// The base price as the voucher changes it, within what these rows leave of its budget.
fn price_with<B: Book>(
    draft: &Draft<'_, B>,
    before: &[OrderPos],
    voucher: Option<&Voucher>,
    base: Cents,
) -> Cents
    ensures { result ≡
        price_with (now draft.now).lists before.now (option_copied voucher.entry) base }
{
    let Some(voucher) = voucher else {
        return base;
    };
    let left = left_after(draft, before, voucher);
    price_within(voucher.price_mode, voucher.value, base, left)
}
