//! Which ids have a key?
#![tactic(auto)]

pub mod block;
pub mod blocks;
pub mod chain;
pub mod entries;
pub mod found;
pub mod index;

pub use entries::{entry, id_of};
pub use found::Found;
pub use index::Index;
