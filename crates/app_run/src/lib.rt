//! What does each command line do, and how does the program answer requests in memory?
//!
//! `feed` answers raw requests from a reader, with a box office whose tables are in SQLite's memory. The other commands
//! work on a shop's file.
#![tactic(auto)]

pub mod dispatch;
pub mod feeding;
pub mod file_commands;
pub mod laws;
pub mod memory_shop;
pub mod opening;
pub mod typed;

pub use dispatch::run;
pub use feeding::{feed, feed_texts};
pub use file_commands::{add_token, export_shop, make_shop, report_shop, run_serve, work_shop};
pub use memory_shop::run_memory_shop;
pub use opening::{open_memory, open_store};
pub use typed::add_typed_token;
