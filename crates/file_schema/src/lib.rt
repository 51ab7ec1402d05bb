//! Which tables does the file have, and what do statements and transactions do to them?
#![tactic(auto)]

pub mod error;
pub mod lookup;
pub mod make;
pub mod statement;
pub mod writing;

pub use error::RowError;
pub use lookup::{Lookup, look_up};
pub use make::{VERSION, add_tables};
pub use statement::run;
pub use writing::{Writing, schema_known, write_whole};
