//! How does a book take over the counts that were written with its changes?
#![tactic(auto)]

pub mod again;
mod beside;
pub mod counted;
mod fresh;
pub mod settle;
pub mod spared;
