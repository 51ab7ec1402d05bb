//! Texts and words of a choice in columns.

ghost use Rattle.std.specs.Prelude.{⊤};
ghost use Rattle.sqlite_value.specs.declared.value.Value.TheVariants.{Text as Words};
ghost use Rattle.base_values.specs.Slugs.{IsSlug};
ghost use Rattle.file_rows.specs.Cells as cell;
ghost use Rattle.file_rows.specs.Fit.{IsStored};

use crate::column::{Column, value_at};
use base_values::{PriceMode, Slug, Text, is_slug, is_text};
use file_schema::RowError;
use model_rows::{CheckinKind, Status};
use sqlite::Row;
use sqlite_value::value::ValueRef;
use std::alloc::Global;

impl Column for Text {
    ghost cell = { Words };

    ghost fits = { IsStored };

    fn bind(&self) -> Result<ValueRef<'_>, RowError> {
        Ok(ValueRef::Text(self.as_str().as_bytes()))
    }

    fn read(_: Global, row: &Row, at: usize) -> Result<Text, RowError> {
        match value_at::<String>(row, at) {
            Ok(chars) if is_text(&chars) => Ok(Text::new(chars)),
            Ok(_) => Err(RowError::Damaged),
            Err(error) => Err(error),
        }
    }
}

impl Column for Slug {
    ghost cell = { Words };

    ghost fits = { IsSlug };

    fn bind(&self) -> Result<ValueRef<'_>, RowError> {
        Ok(ValueRef::Text(self.as_str().as_bytes()))
    }

    fn read(alloc: Global, row: &Row, at: usize) -> Result<Slug, RowError> {
        let chars = match value_at::<String>(row, at) {
            Ok(chars) if is_slug(&chars) => chars,
            Ok(_) => return Err(RowError::Damaged),
            Err(error) => return Err(error),
        };
        match Slug::copy_of(alloc, &chars) {
            Ok(slug) => Ok(slug),
            Err(_) => Err(RowError::Memory),
        }
    }
}

impl Column for PriceMode {
    ghost cell = { cell.mode };

    ghost fits = { λ w. ⊤ };

    fn bind(&self) -> Result<ValueRef<'_>, RowError> {
        Ok(ValueRef::Text(match self {
            PriceMode::None => b"none",
            PriceMode::Set => b"set",
            PriceMode::Subtract => b"subtract",
            PriceMode::Percent => b"percent",
        }))
    }

    fn read(_: Global, row: &Row, at: usize) -> Result<PriceMode, RowError> {
        let word = match value_at::<String>(row, at) {
            Ok(word) => word,
            Err(error) => return Err(error),
        };
        match word.as_str() {
            "none" => Ok(PriceMode::None),
            "set" => Ok(PriceMode::Set),
            "subtract" => Ok(PriceMode::Subtract),
            "percent" => Ok(PriceMode::Percent),
            _ => Err(RowError::Damaged),
        }
    }
}

impl Column for Status {
    ghost cell = { cell.status };

    ghost fits = { λ w. ⊤ };

    fn bind(&self) -> Result<ValueRef<'_>, RowError> {
        Ok(ValueRef::Text(match self {
            Status::Pending => b"n",
            Status::Paid => b"p",
            Status::Expired => b"e",
            Status::Cancelled => b"c",
        }))
    }

    fn read(_: Global, row: &Row, at: usize) -> Result<Status, RowError> {
        let letter = match value_at::<String>(row, at) {
            Ok(letter) => letter,
            Err(error) => return Err(error),
        };
        match letter.as_str() {
            "n" => Ok(Status::Pending),
            "p" => Ok(Status::Paid),
            "e" => Ok(Status::Expired),
            "c" => Ok(Status::Cancelled),
            _ => Err(RowError::Damaged),
        }
    }
}

impl Column for CheckinKind {
    ghost cell = { cell.kind };

    ghost fits = { λ w. ⊤ };

    fn bind(&self) -> Result<ValueRef<'_>, RowError> {
        Ok(ValueRef::Text(match self {
            CheckinKind::Entry => b"entry",
            CheckinKind::Exit => b"exit",
        }))
    }

    fn read(_: Global, row: &Row, at: usize) -> Result<CheckinKind, RowError> {
        let word = match value_at::<String>(row, at) {
            Ok(word) => word,
            Err(error) => return Err(error),
        };
        match word.as_str() {
            "entry" => Ok(CheckinKind::Entry),
            "exit" => Ok(CheckinKind::Exit),
            _ => Err(RowError::Damaged),
        }
    }
}
