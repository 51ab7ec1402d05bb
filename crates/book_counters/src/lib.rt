//! How does a book keep its counts, and answer by them?
#![tactic(auto)]

pub mod book;
pub mod counters;
pub mod dues;

pub use counters::Counters;
