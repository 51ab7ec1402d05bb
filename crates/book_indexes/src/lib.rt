//! How are rows found by their end, the row that they name, their text, and what they belong to?
#![tactic(auto)]

pub mod digests;
pub mod indexed;
pub mod keyed;
pub mod keys;
pub mod ordered;
pub mod walk;

pub use digests::{digest, pair};
pub use indexed::Indexed;
pub use keyed::Keyed;
pub use keys::Keys;
pub use ordered::OrderedRows;
pub use walk::Walk;
