//! What is written for the bytes of a connection, whoever answers its messages?
#![tactic(auto)]

pub mod buffers;
pub mod failure;
pub mod handler;
pub mod laws;
pub mod run;
pub mod step;

pub use buffers::{Buffers, ReadBuffer, blank};
pub use failure::Failure;
pub use handler::Handler;
pub use run::{run_connection, run_stream};
