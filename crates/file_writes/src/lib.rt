//! How is a row put into the file, or removed from it, by one statement?
#![tactic(auto)]

mod bound;
pub mod budgets;
pub mod carts;
pub mod checkin_lists;
pub mod checkins;
pub mod counts;
pub mod discounts;
pub mod exits;
pub mod items;
pub mod kept;
pub mod list_items;
pub mod members;
pub mod orders;
pub mod positions;
pub mod quota_items;
pub mod quota_variations;
pub mod quotas;
pub mod releases;
pub mod shop;
pub mod spents;
pub mod stored;
pub mod tokens;
pub mod variations;
pub mod vouchers;
pub mod waiting;

pub use kept::{forget, keep};
pub use members::{RemoveByOwner, remove_members};
pub use positions::put_position;
pub use stored::{Statements, Stored, put};
pub use vouchers::{put_redeemed, put_voucher, remove_voucher};
