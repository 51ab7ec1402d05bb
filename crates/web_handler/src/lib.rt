//! How does a shop answer each message of a connection once?
#![tactic(auto)]

pub mod feeding;
pub mod handler;
pub mod office;
mod serving;

pub use feeding::feed_office;
pub use handler::ShopHandler;
pub use office::run_office;
pub use office_once::Office;
pub use web_arrivals::HttpWording;
