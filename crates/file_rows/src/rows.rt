//! Rows of the file that are no rows of the box office.

use base_tables::Row;
use base_values::{Cents, Moment, PriceMode, Size, Slug, Text, Uses};
use model_answers::Kept;
use model_catalogue::Product;
use model_rows::NextIds;

/// The row of the shop itself: the version of its tables, whose it is, the moment up to which it has got, and the ids that
/// the next rows get.
#[derive(Drop)]
pub struct ShopRow {
    pub version: u64,
    pub organizer: Slug,
    pub event: Slug,
    pub moment: Moment,
    pub next: NextIds,
    pub next_token: u64,
}

/// A quota without its members.
#[derive(Drop)]
pub struct QuotaRow {
    pub id: u64,
    pub name: Text,
    pub size: Option<Size>,
}

/// An item of a quota. The number of the row counts for nothing else.
#[derive(Clone, Copy, PartialEq, Eq)]
pub struct QuotaItem {
    pub rowid: u64,
    pub quota: u64,
    pub item: u64,
}

/// A variation of a quota.
#[derive(Clone, Copy, PartialEq, Eq)]
pub struct QuotaVariation {
    pub rowid: u64,
    pub quota: u64,
    pub variation: u64,
}

/// What the table `quota_count` has of a quota's usage, in places.
#[derive(Clone, Copy, PartialEq, Eq)]
pub struct CountRow {
    pub quota: u64,
    pub paid: u64,
    pub pending: u64,
    pub blocked: u64,
    pub carts: u64,
    pub waiting: u64,
}

/// A quota that releases the places of tickets that went out.
#[derive(Clone, Copy, PartialEq, Eq)]
pub struct ReleaseRow {
    pub quota: u64,
}

/// What the table `quota_exited` has of a quota's usage: how many of its tickets are out.
#[derive(Clone, Copy, PartialEq, Eq)]
pub struct ExitRow {
    pub quota: u64,
    pub exited: u64,
}

/// What the table `vouchers` has of a voucher. Its `value` is in cents, or in hundredths of a percent where the mode is
/// percent.
#[derive(Drop)]
pub struct VoucherHead {
    pub id: u64,
    pub code: Text,
    pub max_usages: Uses,
    pub valid_until: Option<Moment>,
    pub block_quota: bool,
    pub allow_ignore_quota: bool,
    pub price_mode: PriceMode,
    pub value: Option<Cents>,
    pub item: Option<u64>,
    pub variation: Option<u64>,
    pub quota: Option<u64>,
    pub tag: Text,
    pub comment: Text,
}

/// A voucher, and how often it is redeemed.
#[derive(Drop)]
pub struct VoucherRow {
    pub voucher: VoucherHead,
    pub redeemed: u64,
}

/// A voucher that has a budget, in cents.
#[derive(Clone, Copy, PartialEq, Eq)]
pub struct BudgetRow {
    pub voucher_id: u64,
    pub budget: Cents,
}

/// How much of a voucher is spent, in cents.
#[derive(Clone, Copy, PartialEq, Eq)]
pub struct SpentRow {
    pub voucher_id: u64,
    pub spent: u64,
}

/// What the table `order_positions` has of an order position.
#[derive(Drop)]
pub struct PositionRow {
    pub id: u64,
    pub order: u64,
    pub positionid: u32,
    pub product: Product,
    pub price: Cents,
    pub voucher: Option<u64>,
    pub secret: Text,
}

/// What a voucher took off the price of an order position, in cents, where it took any off.
#[derive(Clone, Copy, PartialEq, Eq)]
pub struct DiscountRow {
    pub position_id: u64,
    pub discount: Cents,
}

/// A check-in list without its items.
#[derive(Drop)]
pub struct ListRow {
    pub id: u64,
    pub name: Text,
    pub all_products: bool,
    pub include_pending: bool,
    pub allow_multiple_entries: bool,
    pub allow_entry_after_exit: bool,
}

/// An item of a check-in list.
#[derive(Clone, Copy, PartialEq, Eq)]
pub struct ListItem {
    pub rowid: u64,
    pub list: u64,
    pub item: u64,
}

/// A token, by its SHA-256 digest.
#[derive(Clone, Copy, PartialEq, Eq)]
pub struct Token {
    pub id: u64,
    pub digest: [u8; 32],
}

/// An answer that is kept. The number of the row counts for nothing else.
#[derive(Drop)]
pub struct KeptRow {
    pub rowid: u64,
    pub kept: Kept,
}

impl Row for BudgetRow {
    ghost key = { λ r. r.voucher_id };

    fn id(&self) -> u64 {
        self.voucher_id
    }
}

impl Row for SpentRow {
    ghost key = { λ r. r.voucher_id };

    fn id(&self) -> u64 {
        self.voucher_id
    }
}

impl Row for DiscountRow {
    ghost key = { λ r. r.position_id };

    fn id(&self) -> u64 {
        self.position_id
    }
}
