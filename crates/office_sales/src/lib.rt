//! What is done with a command on vouchers, carts or orders, over a book that is sound?
#![tactic(auto)]

pub mod sales;
