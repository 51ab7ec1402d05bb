//! What does the body of a write ask for?
#![tactic(auto)]

mod body;
mod cart_bodies;
mod catalogue_bodies;
mod choices;
mod copies;
mod door_bodies;
pub mod form;
mod order_bodies;
mod requests;
mod voucher_bodies;
mod waiting_bodies;

pub use body::{read_command, read_move, read_scan};
pub use form::{Form, MoveName};
