//! What is true of every box office, and what keeps it true?
#![tactic(auto)]

pub mod laws;
pub mod made_codes;
pub mod next_ids;
pub mod numbers;
pub mod reserved;
