//! What the tables of a file tell, as it was read.

use base_values::{Moment, Slug};
use model_catalogue::{Item, Quota, Variation};
use model_rows::{
    CartPos, Checkin, CheckinList, NextIds, Order, OrderPos, QuotaCount, Voucher, VoucherCount,
    Waiting,
};

/// What the tables of a file tell: whose shop it is, its moment and its next ids, the rows of the office in order of id, and the
/// counts of its quotas and vouchers.
#[derive(Drop)]
pub struct FileRows {
    pub organizer: Slug,
    pub event: Slug,
    pub moment: Moment,
    pub next: NextIds,
    pub items: Vec<Item>,
    pub variations: Vec<Variation>,
    pub quotas: Vec<Quota>,
    pub vouchers: Vec<Voucher>,
    pub carts: Vec<CartPos>,
    pub orders: Vec<Order>,
    pub positions: Vec<OrderPos>,
    pub waiting: Vec<Waiting>,
    pub checkin_lists: Vec<CheckinList>,
    pub checkins: Vec<Checkin>,
    pub used: Vec<QuotaCount>,
    pub redeemed: Vec<VoucherCount>,
}
