//! What does a change bring to each count of a quota and to a voucher's uses, and what does it take?
#![tactic(auto)]

mod checkins;
mod count_base;
mod numbers;
mod orders;
mod share;
mod shift;
mod tallies;
mod touched;
mod uses;

pub use draft_overlay::Overlay;
pub use tallies::{JournalMark, RowCounts, Tallies};
