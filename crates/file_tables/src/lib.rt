//! How are a shop's tables made in an SQLite file, and what does a commit make of them?
//!
//! It also has the answers that are kept, and the tokens.
#![tactic(auto)]

mod add;
pub mod adding;
mod answers;
mod beginning;
pub mod creating;
pub mod error;
pub mod laws;
pub mod sql;
mod tokens;
pub mod upgrading;
mod writes;

pub use adding::add_token;
pub use creating::create;
pub use error::{CreateError, HandedBack, TokenError};
pub use sql::SqlTables;
pub use upgrading::upgrade;
