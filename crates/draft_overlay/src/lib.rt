//! Which rows does a book have with changes laid over it, and how many pass a test?
#![tactic(auto)]

mod cart_conditions;
mod overlay;
mod purchases;
mod row_names;

pub use overlay::{Overlay, count_if};
pub use purchases::Purchase;
