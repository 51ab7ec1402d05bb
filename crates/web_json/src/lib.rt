//! What is a row of the box office as JSON, and how is a text of JSON written piece by piece?
#![tactic(auto)]

mod doors;
mod members;
mod orders;
pub mod pieces;
mod rows;
mod values;
mod vouchers;
mod waiting;

pub use doors::{admitted_value, door_status_value};
pub use pieces::{
    WriteRow, append_key_and_list, append_list_member, append_opened, append_text, append_value,
};
pub use rows::{append_shown, availability_value, cart_value};
pub use waiting::periodic_value;
