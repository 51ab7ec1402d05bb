//! What do the CSV files of a house say: its order positions, and vouchers to add?
#![tactic(auto)]

mod columns;
pub mod laws;
mod lines;
mod positions;
mod sink;
mod verdicts;
mod voucher_file;

pub use positions::{Lines, export_positions};
pub use sink::CsvSink;
pub use verdicts::{codes_of, verdict_lines};
pub use voucher_file::{FileFault, read_vouchers};
