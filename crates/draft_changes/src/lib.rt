//! What do changes that aren't applied yet take of each quota, and is it too much?
#![tactic(auto)]

mod bases;
pub mod draft;
mod finish;
mod ids;
mod over;
mod weighed;

pub use draft::{Draft, Mark};
