//! Which box office do the rows of a file make, and how does a book get them?
//!
//! Members, budgets and discounts are put beside the rows that they are of.
#![tactic(auto)]

pub mod arranging;
mod book;
pub mod counts;
pub mod error;
mod filled;
pub mod laws;
pub mod links;
pub mod lists;
pub mod members;
pub mod positions;
mod put;
pub mod quotas;
pub mod sales;
mod tables;
pub mod values;
pub mod vouchers;

pub use arranging::{Arranged, arrange};
pub use error::ArrangeError;
pub use filled::{Aside, fill};
