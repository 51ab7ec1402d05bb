//! Which of many requests are carried out, what is each answered, and what is kept?
//!
//! Definitions over lists of arrivals, and their laws.
#![tactic(auto)]

pub mod arrival;
pub mod laws;
pub mod wording;

pub use arrival::{Arrival, Request};
pub use wording::{Wording, worded};
