//! How do many conversations take turns at one handler, in any order?
#![tactic(auto)]

pub mod connection;
pub mod connections;
pub mod context;
pub mod laws;
pub mod phase;
pub mod slot;
pub mod turns;

pub use connection::Connection;
pub use connections::Connections;
pub use context::Context;
pub use phase::{Needs, Phase};
pub use slot::Slot;
pub use turns::Next;
