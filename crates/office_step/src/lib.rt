//! What is the step of each command, and the answer to each query?
//!
//! Definitions, and how each command begins and ends.
#![tactic(auto)]

pub mod opening;

pub use book_tally::Drafted;
pub use decide_orders::{Book, Draft};
pub use opening::{close, offered, open, refused, show_voucher};
