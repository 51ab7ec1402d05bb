//! How does a shop carry each request out once, and keep its answer?
//!
//! A shop is an office, the tables that have its rows and its answers, and its wording.
#![tactic(auto)]

mod deciding;
mod reading;
pub mod shop;
mod writing;

pub use office_commands::Office;
pub use shop::Shop;
