//! What are the fields of requests called, and what may be wrong with one?
#![tactic(auto)]

pub mod fields;

pub use fields::{EntryFault, Fault, Field, Problem};
