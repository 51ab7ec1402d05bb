//! How does a person read what was sold, and who came in?
#![tactic(auto)]

mod columns;
mod doors;
mod entries;
mod sales;
mod text;

pub use doors::door_text;
pub use text::sales_text;
