//! What do many callers at once make of a shop?
#![tactic(auto)]

pub mod laws;
