//! Do values and messages come out as they were worked out elsewhere?
//!
//! Tests alone: in a crate of their own, so that the crates below aren't proved twice for them.
#![tactic(auto)]

#[cfg(test)]
mod messages;
#[cfg(test)]
mod values;
