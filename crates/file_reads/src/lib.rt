//! Which SELECT reads a table's rows, and what does each row say?
#![tactic(auto)]

mod budgets;
mod carts;
mod checkin_lists;
mod checkins;
mod columns;
mod counts;
mod discounts;
mod exits;
mod items;
mod kept;
mod list_items;
mod loaded;
mod lookups;
mod orders;
mod positions;
mod quota_items;
mod quota_variations;
mod quotas;
mod releases;
mod shop;
mod spents;
mod tokens;
mod variations;
mod vouchers;
mod waiting;

pub use loaded::Loaded;
pub use lookups::{FindByOwner, find_kept, find_token, members_of};
