//! Which kept counts change with a row, or as time passes?
#![tactic(auto)]

pub mod holds;
pub mod redemptions;
pub mod shift;
pub mod spends;
pub mod touched;
pub mod usage_later;
