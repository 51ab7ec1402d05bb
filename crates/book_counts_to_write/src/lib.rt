//! Which counts of quotas and vouchers differ after changes, by what these shift?
#![tactic(auto)]

mod compared;
mod counts;
mod due;
mod exits;
mod recounts;
mod told;
mod walk;

pub use compared::counts_between;
pub use counts::counts_by_shifts;
