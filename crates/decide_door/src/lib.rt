//! Does a door admit a ticket, and who came in?
#![tactic(auto)]

pub mod laws;
pub mod listing;
pub mod lists;
pub mod passages;
pub mod scans;
pub mod stays;
pub mod verdict;
pub mod worked;

pub use listing::{belongs, position_count, positions, ticket_of};
pub use lists::add_list;
pub use scans::redeem;
pub use stays::status;
