//! What may be done with carts and orders, and what changes?
#![tactic(auto)]

pub mod budgets;
pub mod bulk;
pub mod cart_id;
pub mod carts;
pub mod creating;
pub mod laws;
pub mod moves;
pub mod periodic;
pub mod places;
pub mod sold;
pub mod usability;

pub use book_usage::Book;
pub use bulk::add_many;
pub use carts::{add_position, drop_position};
pub use creating::create;
pub use draft_changes::Draft;
pub use moves::move_order;
pub use periodic::{drop_dead_carts, expire_orders};
pub use sold::Sold;
