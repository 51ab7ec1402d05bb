//! The rows of all tables together.

use crate::rows::{
    BudgetRow, CountRow, DiscountRow, ExitRow, KeptRow, ListItem, ListRow, PositionRow, QuotaItem,
    QuotaRow, QuotaVariation, ReleaseRow, SpentRow, Token, VoucherRow,
};
use model_catalogue::{Item, Variation};
use model_rows::{CartPos, Checkin, Order, Waiting};

/// What is for sale, and the quotas.
#[derive(Drop)]
pub struct CatalogueRows {
    pub items: Vec<Item>,
    pub variations: Vec<Variation>,
    pub quotas: Vec<QuotaRow>,
    pub quota_items: Vec<QuotaItem>,
    pub quota_variations: Vec<QuotaVariation>,
    pub releases: Vec<ReleaseRow>,
}

/// What is sold, held and waited for.
#[derive(Drop)]
pub struct SaleRows {
    pub vouchers: Vec<VoucherRow>,
    pub carts: Vec<CartPos>,
    pub orders: Vec<Order>,
    pub positions: Vec<PositionRow>,
    pub waiting: Vec<Waiting>,
    pub budgets: Vec<BudgetRow>,
    pub discounts: Vec<DiscountRow>,
}

/// What the doors have.
#[derive(Drop)]
pub struct DoorRows {
    pub checkin_lists: Vec<ListRow>,
    pub list_items: Vec<ListItem>,
    pub checkins: Vec<Checkin>,
}

/// What stands beside the office.
#[derive(Drop)]
pub struct OtherRows {
    pub counts: Vec<CountRow>,
    pub tokens: Vec<Token>,
    pub kept: Vec<KeptRow>,
    pub exits: Vec<ExitRow>,
    pub spents: Vec<SpentRow>,
}

/// All rows of all tables but the shop's own.
#[derive(Drop)]
pub struct TableRows {
    pub catalogue: CatalogueRows,
    pub sales: SaleRows,
    pub doors: DoorRows,
    pub others: OtherRows,
}
