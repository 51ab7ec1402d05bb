//! Which command is this message?
#![tactic(auto)]

pub mod call;
mod endpoint;
pub mod key;
pub mod laws;
mod page;
mod path;
mod routes;
mod tickets;
mod token;
mod verb;
pub mod words;

pub use call::Call;
pub use key::key_of;
pub use words::ApiRouter;
