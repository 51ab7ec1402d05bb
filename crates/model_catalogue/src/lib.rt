//! What is for sale, as rows and as lists?
//!
//! Items, variations and quotas.
#![tactic(auto)]

pub mod limits;
pub mod refusal;
pub mod requests;
pub mod rows;

pub use limits::{LAST_ID, MOST_ROWS, takes_row, takes_rows};
pub use refusal::CatalogueRefusal;
pub use requests::{ItemPatch, NewItem, NewQuota, NewVariation, QuotaPatch};
pub use rows::{Item, ItemRows, PricedVariation, Product, Quota, Variation};
