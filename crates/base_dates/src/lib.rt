//! Which moment or day does a text name, and how is one written?
#![tactic(auto)]

pub mod laws;
pub mod reading;
pub mod writing;

pub use reading::{read_day, read_moment};
pub use writing::moment_text;
