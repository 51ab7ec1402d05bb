//! What has changed since the book, and where was a row, or a code, changed last?
#![tactic(auto)]

pub mod change_log;
pub mod digests;
pub mod key_log;
pub mod rows;
mod touched;

pub use change_log::{ChangeLog, Table};
pub use digests::{code_key, digest};
pub use key_log::KeyLog;
