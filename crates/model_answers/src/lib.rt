//! Which answers are kept under keys, and what do tables that keep them promise?
#![tactic(auto)]

pub mod kept;
pub mod key;
pub mod laws;
pub mod tables;

pub use kept::{A_DAY, Kept, copy_response};
pub use key::Key;
pub use tables::{Tables, TablesError};
