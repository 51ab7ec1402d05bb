//! Which rows do the tables of a file have?
#![tactic(auto)]

pub mod each;
pub mod error;
pub mod file;
pub mod head;
pub mod ids;
pub mod laws;
pub mod numbers;
pub mod progress;
pub mod read;
pub mod table;
pub mod whole;

pub use each::{Taker, each_row};
pub use error::OpenError;
pub use file::{FileTables, read_file, read_file_of};
pub use progress::{Progress, Quiet};
pub use read::read_tables;
