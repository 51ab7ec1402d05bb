//! What a book keeps beside its rows.

use model_rows::Usage;

/// What a book keeps beside its rows: what uses each quota; and of each voucher how often it is redeemed, what is spent of its budget,
/// in cents, and how many live cart positions name it. Each is in order of the rows' ids.
#[derive(Drop)]
pub struct Counted {
    pub usages: Vec<Usage>,
    pub redeems: Vec<u64>,
    pub spents: Vec<u128>,
    pub holds: Vec<u64>,
}
