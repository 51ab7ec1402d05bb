//! Which rule do the rows of a file break first?
#![tactic(auto)]

mod budgets;
mod codes;
mod counters;
mod door;
mod first;
mod head;
mod headroom;
mod ids;
mod keys;
mod last;
mod limits;
mod members;
mod names;
mod nonces;
mod orders;
mod products;
mod vouchers;

pub use budgets::keeps_budgets;
pub use codes::{all_have_own_secrets, have_codes};
pub use counters::keeps_counters;
pub use door::is_door;
pub use first::first_broken;
pub use head::keeps_head;
pub use headroom::keeps_headroom;
pub use ids::keeps_ids;
pub use last::last_broken;
pub use limits::keeps_limits;
pub use members::all_have_members;
pub use names::keeps_names;
pub use nonces::are_once;
pub use orders::{all_ordered, are_of_orders, keeps_positions};
pub use products::{all_fit, all_products, all_sent, all_varied};
pub use vouchers::{all_have_targets, all_whole};
