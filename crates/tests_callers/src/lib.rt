//! What do callers at once get, over memory, in every order of what two of them do?
//!
//! Who answers them is up to whoever asks.
#![tactic(auto)]

pub mod error;
mod floor;
mod merges;
mod outcomes;
mod party;
mod serving;
mod told;
mod turns;
mod words;

pub use error::TogetherError;
pub use party::Party;
pub use told::{Houses, together_told};
pub use web_connections::Next;
