//! What is a book, when does a row count, and how much of a quota is used at a moment?
#![tactic(auto)]

pub mod available;
pub mod book;
pub mod dues;
pub mod look_ups;
pub mod rules;

pub use available::{availability, usage_of};
pub use book::{Book, PositionTest};
pub use book_catalogue::Catalogue;
pub use dues::Dues;
pub use look_ups::{Exits, LookUps};
