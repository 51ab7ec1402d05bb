//! Which rows does an export of order positions have, and what takes them one by one?
#![tactic(auto)]

pub mod row;
pub mod sink;

pub use row::ExportRow;
pub use sink::{Sink, SinkFault};
