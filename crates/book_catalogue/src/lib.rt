//! What is for sale, and which quotas list a product, found by keys?
#![tactic(auto)]

pub mod catalogue;
pub mod members;

pub use base_index::Found;
pub use catalogue::Catalogue;
