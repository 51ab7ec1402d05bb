//! How are a file's order positions read one at a time, and written as CSV?
#![tactic(auto)]

pub mod positions;
pub mod writing;

pub use positions::{Walk, WalkError, stream_positions};
pub use writing::{fault_of_walk, write_positions};
