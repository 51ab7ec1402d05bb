//! How much came and went under a key, now and at an earlier place, and what changes shift?
//!
//! A tally goes back to an earlier place without memory.
#![tactic(auto)]

pub mod amount;
pub mod deltas;
pub mod tally;

pub use amount::{Amount, Uses};
pub use deltas::{CountDeltas, Drafted, QuotaDelta, VoucherDelta};
pub use tally::{Count, Tally};
