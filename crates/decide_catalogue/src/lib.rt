//! May an item, a variation or a quota be added or changed, and does what a row names fit?
//!
//! Do the items and variations that a quota lists exist and fit together, and does what a voucher names?
#![tactic(auto)]

pub mod items;
pub mod members;
pub mod quotas;
pub mod targets;

pub use items::{add_item, add_variation, change_item};
pub use quotas::{add_quota, resize};
