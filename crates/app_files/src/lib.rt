//! What does each command do with a shop's file?
//!
//! A command makes a shop in a file, brings a file to the newest version, adds a token, serves the shop, does its periodic
//! work, adds the vouchers of a CSV file, exports its order positions, or asks for a report on it.
#![tactic(auto)]

mod acting;
pub mod adding;
pub mod exporting;
pub mod faults;
pub mod filed;
pub mod heads;
pub mod house;
pub mod importing;
pub mod laws;
pub mod making;
pub mod migrating;
mod opening;
mod progress;
pub mod reporting;
pub mod serving;
pub mod shelf;
pub mod words;
pub mod working;

pub use adding::add_shop_token;
pub use exporting::export_shop;
pub use faults::{fault_of_file, fault_of_making, fault_of_opening, fault_of_token};
pub use filed::Filed;
pub use heads::{begins_as_database, finds_mark, has_mark};
pub use house::House;
pub use importing::import_shop;
pub use making::make_new_shop;
pub use migrating::migrate_shop;
pub use reporting::report_shop;
pub use serving::serve_shop;
pub use shelf::Shelf;
pub use words::{ImportWords, WorkWords};
pub use working::work_shop;
