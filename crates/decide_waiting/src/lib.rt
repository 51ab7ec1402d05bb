//! May one wait for what is sold out, and who gets a place that comes free?
#![tactic(auto)]

pub mod entries;
pub mod joining;
pub mod laws;
mod places;
pub mod rows;
pub mod sending;
pub mod serving;
mod turns;

pub use entries::{change, leave};
pub use joining::join;
pub use sending::send;
pub use serving::send_all;
