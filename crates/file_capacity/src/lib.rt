//! Does a file take whatever a sound office changes and counts?
#![tactic(auto)]

pub mod laws;
