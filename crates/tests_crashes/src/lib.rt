//! What becomes of a shop's files in memory after each deed, and where calls are refused?
//!
//! What a deed does is up to whoever asks.
#![tactic(auto)]

pub mod deed;
pub mod error;
mod outcomes;
mod refusing;
pub mod run;
mod stored;
pub mod trial;

pub use deed::{Acted, Acts, Deed};
pub use error::TrialError;
pub use run::run_told;
pub use trial::{Kind, trial_told};
