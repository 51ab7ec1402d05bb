//! What does the box office do with each command, and answer to each query?
#![tactic(auto)]

mod deciding;
mod door_queries;
mod lists;
pub mod office;
mod queries;
mod shown_rows;

pub use office::Office;
