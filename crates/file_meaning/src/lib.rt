//! What do the tables of a file say of a box office, in whatever order their rows are?
#![tactic(auto)]

pub mod known;
pub mod laws;

pub use known::{answer_known, changes_known};
