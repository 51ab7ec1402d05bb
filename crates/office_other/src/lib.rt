//! What is done with a command on the catalogue, waiting list or doors, over a sound book?
#![tactic(auto)]

pub mod catalogue;
pub mod doors;
pub mod waiting;

pub use office_step::{Drafted, show_voucher};
