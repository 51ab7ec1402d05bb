//! All that one commit writes into the file.

mod answers;
mod changes;
mod counts;
mod members;
mod rows;
mod taken;
mod whole;
mod writable;

pub(crate) use taken::takes;
pub(crate) use whole::Commit;
