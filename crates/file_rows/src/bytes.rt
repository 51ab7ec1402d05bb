//! Bytes and status codes in columns.

ghost use Rattle.std.specs.Prelude.{⊤};
ghost use Rattle.sqlite_value.specs.declared.value.Value.TheVariants.{Blob};
ghost use Rattle.file_rows.specs.Cells as cell;
ghost use Rattle.file_rows.specs.Fit.{IsDigest, IsStatus};

use crate::column::{Column, value_at};
use crate::numbers::number_in;
use base_values::{Body, StatusCode};
use file_schema::RowError;
use model_answers::Key;
use sqlite::Row;
use sqlite_value::value::ValueRef;
use std::alloc::Global;

impl Column for Key {
    ghost cell = { Blob };

    ghost fits = { λ b. ⊤ };

    fn bind(&self) -> Result<ValueRef<'_>, RowError> {
        Ok(ValueRef::Blob(self.as_slice()))
    }

    fn read(_: Global, row: &Row, at: usize) -> Result<Key, RowError> {
        match value_at::<Vec<u8>>(row, at) {
            Ok(bytes) => Ok(Key::new(bytes)),
            Err(error) => Err(error),
        }
    }
}

impl Column for Body {
    ghost cell = { Blob };

    ghost fits = { λ b. ⊤ };

    fn bind(&self) -> Result<ValueRef<'_>, RowError> {
        Ok(ValueRef::Blob(self.as_slice()))
    }

    fn read(_: Global, row: &Row, at: usize) -> Result<Body, RowError> {
        match value_at::<Vec<u8>>(row, at) {
            Ok(bytes) => Ok(Body::new(bytes)),
            Err(error) => Err(error),
        }
    }
}

impl Column for [u8; 32] {
    ghost cell = { Blob };

    ghost fits = { IsDigest };

    fn bind(&self) -> Result<ValueRef<'_>, RowError> {
        Ok(ValueRef::Blob(self))
    }

    fn read(_: Global, row: &Row, at: usize) -> Result<[u8; 32], RowError> {
        match value_at::<Vec<u8>>(row, at) {
            Ok(bytes) if bytes.len() == 32 => {
                let mut digest = [0; 32];
                digest.copy_from_slice(&bytes);
                Ok(digest)
            }
            Ok(_) => Err(RowError::Damaged),
            Err(error) => Err(error),
        }
    }
}

impl Column for StatusCode {
    ghost cell = { cell.number };

    ghost fits = { IsStatus };

    fn bind(&self) -> Result<ValueRef<'_>, RowError> {
        Ok(ValueRef::Int(i64::from(self.as_u16())))
    }

    fn read(_: Global, row: &Row, at: usize) -> Result<StatusCode, RowError> {
        match number_in(row, at, 100, 999) {
            Ok(n) => Ok(StatusCode::new(n as u16)),
            Err(error) => Err(error),
        }
    }
}
