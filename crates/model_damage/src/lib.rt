//! When is a file damaged, and by which rule?
#![tactic(auto)]

pub mod file_rows;
pub mod laws;
pub mod rule;

pub use file_rows::FileRows;
pub use rule::Rule;
