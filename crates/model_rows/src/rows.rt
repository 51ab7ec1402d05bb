//! The rows of the box office.

ghost use Rattle.std.specs.Prelude.{◌≡◌, ◌↔◌, IsTrue, IfOk};
ghost use Rattle.model_rows.specs.Lists.{first_ids};
ghost use Rattle.model_rows.specs.Total.{total};
ghost use Rattle.model_rows.specs.Letters.{status_letter};
ghost use Rattle.model_rows.specs.Conditions.{is_paid, is_pending, is_in_force, is_live_voucher, hits, blocks, is_live_cart, holds};
ghost use Rattle.model_rows.specs.Consumed.{is_consumed};
ghost use Rattle.model_rows.specs.Usage.{waits_for};
ghost use Rattle.model_rows.specs.Waits.{same_product, waits_as};
ghost use Rattle.model_rows.specs.Due.{is_due};
ghost use Rattle.model_rows.specs.CameDue.{is_due_cart, is_due_voucher};
ghost use Rattle.model_rows.specs.Fits.{has_variation, fits_item};

use base_tables::{Ids, Row};
use base_values::{Cents, List, Moment, PriceMode, Priority, Size, Text, Uses};
use model_catalogue::{Product, Quota};
use std::alloc::{AllocError, Global};

/// A voucher. Its `value` is in cents, or in hundredths of a percent where the mode is percent.
/// It is live up to and at `valid_until`. Tag and comment may be empty.
/// `budget` is what its positions may take off prices together; none is no limit.
#[derive(Drop)]
pub struct Voucher {
    pub id: u64,
    pub code: Text,
    pub max_usages: Uses,
    pub valid_until: Option<Moment>,
    pub block_quota: bool,
    pub allow_ignore_quota: bool,
    pub price_mode: PriceMode,
    pub value: Option<Cents>,
    pub item: Option<u64>,
    pub variation: Option<u64>,
    pub quota: Option<u64>,
    pub tag: Text,
    pub comment: Text,
    pub budget: Option<Cents>,
}

/// A place that is held in a cart, up to and at the moment `expires`.
#[derive(Drop)]
pub struct CartPos {
    pub id: u64,
    pub cart_id: Text,
    pub product: Product,
    pub price: Cents,
    pub made_at: Moment,
    pub expires: Moment,
    pub voucher: Option<u64>,
}

/// Whether an order is paid, is waited for, or doesn't stand.
#[derive(Clone, Copy, Debug, PartialEq, Eq)]
pub enum Status {
    Pending,
    Paid,
    Expired,
    Cancelled,
}

/// An order; its positions are rows of their own. Its `id` is its number, 1 to 17,210,367.
#[derive(Drop)]
pub struct Order {
    pub id: u64,
    pub email: Option<Text>,
    pub status: Status,
    pub made_at: Moment,
    pub expires: Moment,
}

/// A ticket of an order. `positionid` counts an order's positions from 1. `discount` is what its voucher took off the base price; without a
/// voucher it is 0.
#[derive(Drop)]
pub struct OrderPos {
    pub id: u64,
    pub order: u64,
    pub positionid: u32,
    pub product: Product,
    pub price: Cents,
    pub voucher: Option<u64>,
    pub secret: Text,
    pub discount: Cents,
}

/// An order with its positions, by their numbers.
#[derive(Drop)]
pub struct OrderRows {
    pub order: Order,
    pub positions: List<OrderPos>,
}

/// An entry of the waiting list. It waits as long as it has no voucher.
#[derive(Drop)]
pub struct Waiting {
    pub id: u64,
    pub email: Text,
    pub product: Product,
    pub priority: Priority,
    pub created: Moment,
    pub voucher: Option<u64>,
}

/// A list by which a door checks tickets in.
/// It is for all products, or else for the items of `limit_products`, whose ids rise.
#[derive(Drop)]
pub struct CheckinList {
    pub id: u64,
    pub name: Text,
    pub all_products: bool,
    pub limit_products: Ids,
    pub include_pending: bool,
    pub allow_multiple_entries: bool,
    pub allow_entry_after_exit: bool,
}

/// Whether a ticket came in or went out.
#[derive(Clone, Copy, PartialEq, Eq)]
pub enum CheckinKind {
    Entry,
    Exit,
}

/// A check-in of an order position by a list, at the moment `datetime`. A list has a nonce once for a position.
#[derive(Drop)]
pub struct Checkin {
    pub id: u64,
    pub list: u64,
    pub position: u64,
    pub kind: CheckinKind,
    pub datetime: Moment,
    pub nonce: Option<Text>,
}

/// A row that a request adds or revives, by its id.
/// It doesn't count against the request where its voucher ignores quotas.
#[derive(Clone, Copy, PartialEq, Eq)]
pub enum Own {
    Cart(u64),
    Position(u64),
}

/// What uses a quota, in places. Those who have gone out of a quota that releases their places are among the paid ones.
#[derive(Clone, Copy, PartialEq, Eq)]
pub struct Usage {
    pub paid: u64,
    pub pending: u64,
    pub blocked: u64,
    pub carts: u64,
    pub waiting: u64,
    pub exited: u64,
}

impl Usage {
    /// Nothing is used.
    pub const NONE: Usage = Usage {
        paid: 0,
        pending: 0,
        blocked: 0,
        carts: 0,
        waiting: 0,
        exited: 0,
    };
}

/// The ids that the next row of each table gets.
#[derive(Clone, Copy, PartialEq, Eq)]
pub struct NextIds {
    pub item: u64,
    pub variation: u64,
    pub quota: u64,
    pub voucher: u64,
    pub cart: u64,
    pub order: u64,
    pub position: u64,
    pub waiting: u64,
    pub list: u64,
    pub checkin: u64,
}

/// Whether places of a quota are left, and how many: `available_number` is none where the quota is unlimited.
#[derive(Clone, Copy, PartialEq, Eq)]
pub struct Availability {
    pub size: Option<Size>,
    pub usage: Usage,
    pub available: bool,
    pub available_number: Option<u64>,
}

impl Row for Voucher {
    ghost key = { λ r. r.id };

    fn id(&self) -> u64 {
        self.id
    }
}

impl Row for CartPos {
    ghost key = { λ r. r.id };

    fn id(&self) -> u64 {
        self.id
    }
}

impl Row for Order {
    ghost key = { λ r. r.id };

    fn id(&self) -> u64 {
        self.id
    }
}

impl Row for OrderPos {
    ghost key = { λ r. r.id };

    fn id(&self) -> u64 {
        self.id
    }
}

impl Row for Waiting {
    ghost key = { λ r. r.id };

    fn id(&self) -> u64 {
        self.id
    }
}

impl Row for CheckinList {
    ghost key = { λ r. r.id };

    fn id(&self) -> u64 {
        self.id
    }
}

impl Row for Checkin {
    ghost key = { λ r. r.id };

    fn id(&self) -> u64 {
        self.id
    }
}

impl NextIds {
    /// Every next id is 1.
    pub fn first() -> Self
        ensures { result ≡ first_ids }
    {
        NextIds {
            item: 1,
            variation: 1,
            quota: 1,
            voucher: 1,
            cart: 1,
            order: 1,
            position: 1,
            waiting: 1,
            list: 1,
            checkin: 1,
        }
    }
}

impl Status {
    /// Whether the order is paid.
    pub fn is_paid(self) -> bool
        ensures { result ≡ is_paid self }
    {
        matches!(self, Status::Paid)
    }

    /// Whether the order waits for its payment.
    pub fn is_pending(self) -> bool
        ensures { result ≡ is_pending self }
    {
        matches!(self, Status::Pending)
    }

    /// Whether its positions use vouchers.
    pub fn is_in_force(self) -> bool
        ensures { result ≡ is_in_force self }
    {
        matches!(self, Status::Paid | Status::Pending)
    }

    /// Its letter: `n` for pending, `p` for paid, `e` for expired, `c` for cancelled.
    pub fn letter(self) -> &'static str
        ensures { result.now ≡ status_letter self }
    {
        match self {
            Status::Pending => "n",
            Status::Paid => "p",
            Status::Expired => "e",
            Status::Cancelled => "c",
        }
    }
}

impl Voucher {
    /// Whether it ended, or ends, at `from` or later, and before `to`.
    pub fn ends_between(&self, from: Moment, to: Moment) -> bool
        ensures { result ≡ is_due_voucher from to self.now }
    {
        match self.valid_until {
            None => false,
            Some(end) => from <= end && end < to,
        }
    }

    /// Whether it hasn't ended at this moment.
    pub fn is_live(&self, at: Moment) -> bool
        ensures { result ≡ is_live_voucher at self.now }
    {
        match self.valid_until {
            None => true,
            Some(end) => at <= end,
        }
    }

    /// Whether it blocks places of this quota, where it blocks any.
    pub fn hits(&self, quota: &Quota) -> bool
        ensures { result ≡ hits quota.now self.now }
    {
        match self.quota {
            Some(id) => id == quota.id,
            None => match self.item {
                Some(item) => quota.has(Product {
                    item,
                    variation: self.variation,
                }),
                None => false,
            },
        }
    }

    /// An equal row.
    pub fn copy(&self, alloc: Global) -> Result<Voucher, AllocError>
        ensures { IfOk result (λ row. row ≡ self.now) }
    {
        Ok(Voucher {
            id: self.id,
            code: self.code.copy(alloc)?,
            max_usages: self.max_usages,
            valid_until: self.valid_until,
            block_quota: self.block_quota,
            allow_ignore_quota: self.allow_ignore_quota,
            price_mode: self.price_mode,
            value: self.value,
            item: self.item,
            variation: self.variation,
            quota: self.quota,
            tag: self.tag.copy(alloc)?,
            comment: self.comment.copy(alloc)?,
            budget: self.budget,
        })
    }

    /// Whether it is for the product by its item and variation, where it names any.
    pub fn fits_item(&self, product: Product) -> bool
        ensures { result ≡ fits_item self.now.item self.now.variation product }
    {
        match self.item {
            None => true,
            Some(item) => item == product.item && self.has_variation(product),
        }
    }

    // Whether it is for the product's variation.
    fn has_variation(&self, product: Product) -> bool
        ensures { result ≡ has_variation self.now.variation product }
    {
        match self.variation {
            None => true,
            Some(id) => product.variation == Some(id),
        }
    }

    /// Whether it blocks places of this quota at this moment.
    pub fn blocks(&self, at: Moment, quota: &Quota) -> bool
        ensures { result ≡ blocks at quota.now self.now }
    {
        self.block_quota && self.is_live(at) && self.hits(quota)
    }
}

impl Usage {
    /// All places that are used.
    pub fn total(&self) -> u128
        ensures { result ≡ total self.now }
    {
        u128::from(self.paid.saturating_sub(self.exited))
            + u128::from(self.pending)
            + u128::from(self.blocked)
            + u128::from(self.carts)
            + u128::from(self.waiting)
    }
}

// Whether both are one product.
fn same_product(a: Product, b: Product) -> bool
    ensures { result ≡ same_product a b }
{
    a.item == b.item && a.variation == b.variation
}

impl Waiting {
    /// An equal row.
    pub fn copy(&self, alloc: Global) -> Result<Waiting, AllocError>
        ensures { IfOk result (λ row. row ≡ self.now) }
    {
        Ok(Waiting {
            id: self.id,
            email: self.email.copy(alloc)?,
            product: self.product,
            priority: self.priority,
            created: self.created,
            voucher: self.voucher,
        })
    }

    /// Whether it waits, without a voucher, for this product, and is of this email.
    pub fn waits_as(&self, email: &str, product: Product) -> bool
        ensures { result ≡ waits_as email.now product self.now }
    {
        self.voucher.is_none() && same_product(self.product, product) && self.email.same(email)
    }

    /// Whether it waits, without a voucher, for a place of this quota.
    pub fn waits_for(&self, quota: &Quota) -> bool
        ensures { result ≡ waits_for quota.now self.now }
    {
        self.voucher.is_none() && quota.has(self.product)
    }
}

impl Order {
    /// Whether it is pending, and ended before the moment.
    pub fn is_due(&self, at: Moment) -> bool
        ensures { result ≡ is_due at self.now }
    {
        self.status.is_pending() && self.expires < at
    }

    /// An equal row.
    pub fn copy(&self, alloc: Global) -> Result<Order, AllocError>
        ensures { IfOk result (λ row. row ≡ self.now) }
    {
        let email = match &self.email {
            None => None,
            Some(email) => Some(email.copy(alloc)?),
        };
        Ok(Order {
            id: self.id,
            email,
            status: self.status,
            made_at: self.made_at,
            expires: self.expires,
        })
    }
}

impl OrderPos {
    /// An equal row.
    pub fn copy(&self, alloc: Global) -> Result<OrderPos, AllocError>
        ensures { IfOk result (λ row. row ≡ self.now) }
    {
        Ok(OrderPos {
            id: self.id,
            order: self.order,
            positionid: self.positionid,
            product: self.product,
            price: self.price,
            voucher: self.voucher,
            secret: self.secret.copy(alloc)?,
            discount: self.discount,
        })
    }
}

impl CartPos {
    /// An equal row.
    pub fn copy(&self, alloc: Global) -> Result<CartPos, AllocError>
        ensures { IfOk result (λ row. row ≡ self.now) }
    {
        Ok(CartPos {
            id: self.id,
            cart_id: self.cart_id.copy(alloc)?,
            product: self.product,
            price: self.price,
            made_at: self.made_at,
            expires: self.expires,
            voucher: self.voucher,
        })
    }

    /// Whether it is in one of these carts.
    pub fn is_in_one_of(&self, carts: &[Text]) -> bool
        ensures { result ≡ is_consumed carts.now self.now }
    {
        carts.iter().any(|cart| self.cart_id.same(cart.as_str()))
    }

    /// Whether it ended, or ends, at `from` or later, and before `to`.
    pub fn ends_between(&self, from: Moment, to: Moment) -> bool
        ensures { result ≡ is_due_cart from to self.now }
    {
        from <= self.expires && self.expires < to
    }

    /// Whether it is held at this moment.
    pub fn is_live(&self, at: Moment) -> bool
        ensures { result ≡ is_live_cart at self.now }
    {
        at <= self.expires
    }

    /// Whether it is live and names the voucher.
    pub fn holds(&self, at: Moment, voucher: u64) -> bool
        ensures { result ≡ holds at voucher self.now }
    {
        self.is_live(at) && self.voucher == Some(voucher)
    }
}

impl CheckinList {
    /// An equal row.
    pub fn copy(&self, alloc: Global) -> Result<CheckinList, AllocError>
        ensures { IfOk result (λ row. row ≡ self.now) }
    {
        Ok(CheckinList {
            id: self.id,
            name: self.name.copy(alloc)?,
            all_products: self.all_products,
            limit_products: self.limit_products.copy(alloc)?,
            include_pending: self.include_pending,
            allow_multiple_entries: self.allow_multiple_entries,
            allow_entry_after_exit: self.allow_entry_after_exit,
        })
    }
}

impl Checkin {
    /// An equal row.
    pub fn copy(&self, alloc: Global) -> Result<Checkin, AllocError>
        ensures { IfOk result (λ row. row ≡ self.now) }
    {
        let nonce = match &self.nonce {
            None => None,
            Some(nonce) => Some(nonce.copy(alloc)?),
        };
        Ok(Checkin {
            id: self.id,
            list: self.list,
            position: self.position,
            kind: self.kind,
            datetime: self.datetime,
            nonce,
        })
    }
}
