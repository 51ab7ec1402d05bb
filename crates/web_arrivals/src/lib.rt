//! Which arrivals are the messages of a stream, and what do they make of a shop?
#![tactic(auto)]

mod coming;
pub mod laws;
pub mod words;

pub use office_deliveries::Arrival;
pub use words::HttpWording;
