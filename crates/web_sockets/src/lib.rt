//! What do the two directions of a connection give, if neither waits?
#![tactic(auto)]

pub mod ends;
pub mod network;
pub mod peer;
pub mod script;
pub mod wire;

pub use ends::{Awaited, Came, Ends};
pub use network::{Accepted, Event, Network};
pub use peer::Peer;
pub use script::Script;
pub use wire::{Tcp, Wire};
