//! How is a shop's file opened, and opened again after a crash?
//!
//! An opened file gives an office with its rows, the shop's row, and the number of its next row; its history goes on.
#![tactic(auto)]

mod book;
pub mod crashes;
mod earlier;
pub mod laws;
pub mod migrating;
pub mod opening;
mod reopening;
mod rows;
mod supply;

pub use migrating::migrate;
pub use opening::open_file;
