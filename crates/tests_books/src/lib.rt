//! What is a usage, and what does it cost, in cases of the books that are worked out by hand?
#![tactic(auto)]

pub mod laws;
