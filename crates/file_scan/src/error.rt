//! Why a file isn't opened.

use file_schema::RowError;
use model_damage::Rule;
use std::alloc::AllocError;

/// Why a file isn't opened.
#[derive(Clone, Copy, PartialEq, Eq, Drop)]
pub enum OpenError {
    /// 6: out of memory.
    Memory,
    /// 60: a table of a shop, or a column of it, isn't there.
    NotAShop,
    /// 61: the tables are of this version, and not of the one that this program reads.
    Version(i64),
    /// 62: the least rule that the rows break.
    Damaged(Rule),
    /// 63: the store refused a call, failed, or didn't answer in the order that was asked for.
    Store,
}

impl From<AllocError> for OpenError {
    fn from(_error: AllocError) -> OpenError {
        OpenError::Memory
    }
}
