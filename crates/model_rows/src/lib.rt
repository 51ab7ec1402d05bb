//! What are the rows of a box office, and how much of each quota do they use?
#![tactic(auto)]

mod available;
pub mod changes;
mod codes;
pub mod count_rows;
pub mod passages;
pub mod rows;

pub use changes::{Change, Changes};
pub use codes::code_of;
pub use count_rows::{CountRows, QuotaCount, VoucherCount};
pub use passages::Passage;
pub use rows::{
    Availability, CartPos, Checkin, CheckinKind, CheckinList, NextIds, Order, OrderPos, OrderRows,
    Own, Status, Usage, Voucher, Waiting,
};
