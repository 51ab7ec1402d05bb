//! What may be done with vouchers, and what changes?
#![tactic(auto)]

pub mod codes;
pub mod decide_voucher;
pub mod importing;
pub mod laws;
mod place;
mod row_checks;
mod rows;
