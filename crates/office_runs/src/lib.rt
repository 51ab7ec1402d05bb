//! What is true of every run of commands, whatever commands come?
#![tactic(auto)]

pub mod laws;
