//! What does a book answer that keeps no counts, and counts afresh at each call?
//!
//! `tries/books` compares the book of the house with it.
#![tactic(auto)]

pub mod copied;
pub mod dues;
pub mod recount;

pub use copied::counts_after;
pub use recount::Recount;
