//! Which status, allowed methods and body does each reply, refusal and fault have?
#![tactic(auto)]

pub mod faults;
pub mod laws;
mod pages;
mod refusals;
pub mod replies;
mod responses;
mod results;
mod table;

pub use faults::{
    field_fault, invalid_data, invalid_page, invalid_token, method_not_allowed, no_credentials,
    not_found, parse_error,
};
pub use replies::words;
