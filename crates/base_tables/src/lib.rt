//! What is a table of rows in order of id, with gaps or without, and a list of ids that rise?
#![tactic(auto)]

pub mod ids;
pub mod iter;
pub mod rising;
pub mod rows;
pub mod slot;
pub mod sparse;

pub use ids::Ids;
pub use iter::Iter;
pub use rising::{are_rising, rises};
pub use rows::{MOST_LISTED, Row, Rows, place_of};
pub use slot::Slot;
pub use sparse::Sparse;
