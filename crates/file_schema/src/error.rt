//! Why rows were not written or read.

ghost use Rattle.std.specs.Prelude.{◌≡◌};
ghost use Rattle.file_schema.specs.Failures.{failure_of};

use sqlite::{Error, ErrorCode};
use sqlite_resolve::CompileError;
use sqlite_syntax::error::ParseError;

/// Why rows were not written or read.
#[derive(Clone, Copy, PartialEq, Eq, Drop)]
pub enum RowError {
    /// 6: out of memory.
    Memory,
    /// 60: the statement has no meaning in the file, which isn't a shop's.
    Foreign,
    /// 62: a column has a value that no such column of a shop has.
    Damaged,
    /// 63: the store refused the call or failed.
    Store,
}

impl RowError {
    /// What a failure of the store means.
    pub fn of(error: Error) -> Self
        ensures { result ≡ failure_of error }
    {
        match error {
            Error::SqliteFailure(ErrorCode::OutOfMemory)
            | Error::SqlInputError(CompileError::OutOfMemory)
            | Error::SqlInputError(CompileError::Parse(ParseError::OutOfMemory)) =>
                RowError::Memory,
            Error::SqlInputError(_) => RowError::Foreign,
            Error::InvalidColumnIndex(_)
            | Error::InvalidColumnType(_, _)
            | Error::IntegralValueOutOfRange(_)
            | Error::Utf8Error(_) => RowError::Damaged,
            _ => RowError::Store,
        }
    }
}

impl From<Error> for RowError {
    fn from(error: Error) -> RowError {
        RowError::of(error)
    }
}

impl From<std::alloc::AllocError> for RowError {
    fn from(_error: std::alloc::AllocError) -> RowError {
        RowError::Memory
    }
}
