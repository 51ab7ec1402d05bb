//! How does a book find the rows of a box office, by id and by key?
#![tactic(auto)]

pub mod carts;
pub mod counts;
pub mod door;
pub mod ended;
pub mod naming;
pub mod orders;
pub mod queue;
pub mod recounts;
pub mod store;
pub mod vouchers;

pub use ended::Ended;
pub use store::Store;
