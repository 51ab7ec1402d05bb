//! A voucher file, as a CSV file.

ghost use Rattle.std.specs.Prelude.{◌≡◌, ◌≢◌, ◌≤◌, Ok, Err, IfOk, IfErr, map};
ghost use Rattle.csv.specs.Records.{fields_of};
ghost use Rattle.app_csv.specs.declared.voucher_file.FileFault.TheVariants.{Memory};
ghost use Rattle.app_csv.specs.VoucherFile.{IsFile, AreLinesOf, FailsAsRead, are_columns, is_header, is_line, known_value, line_read, lines_read, names_four, rows_read, voucher_of};

use crate::columns::{
    column, flag_in, id_in, is_code, is_column, is_named, mode_in, moment_in, uses_in, value_in,
};
use base_values::{List, Text, is_text};
use csv::{ByteRecord, ReaderBuilder};
use model_commands::NewVoucher;
use std::alloc::{AllocError, Global};

// How many lines a file may have below its header.
const MOST_LINES: u64 = 100_000;

/// Why the vouchers of a file can't be read.
#[derive(Clone, Copy, PartialEq, Eq)]
pub enum FileFault {
    /// 6: there is no memory.
    Memory,
    /// 70: the first line doesn't name the columns.
    Header,
    /// 71: this line, from 1 below the header, has not as many columns, or isn't UTF-8.
    Line(u64),
    /// 72: of this line this column, from 1, can't be read, or is out of its range.
    Column(u64, u64),
    /// 74: there are more lines than 100,000.
    TooMany,
}

impl From<AllocError> for FileFault {
    ghost from_gives = { λ _ e. e ≡ Memory };

    fn from(_error: AllocError) -> FileFault {
        FileFault::Memory
    }
}

impl From<csv::Error> for FileFault {
    ghost from_gives = { λ _ e. e ≡ Memory };

    // A text that is lent is read whole, unless there is no memory.
    fn from(_error: csv::Error) -> FileFault {
        FileFault::Memory
    }
}

/// The vouchers that the lines of a file ask for, each with a code. Refusals, in the order of the file: 70 `Header`; 71 `Line` and
/// 72 `Column` with the line and the column; 74 `TooMany` at line 100,001; and 6 `Memory`.
pub fn read_vouchers(alloc: Global, text: &[u8]) -> Result<List<NewVoucher>, FileFault>
    ensures done { IfOk result (λ vouchers. IsFile text.now (Ok vouchers)) }
    ensures refused { IfErr result (λ e. e ≢ FileFault.Memory → IsFile text.now (Err e)) }
{
    let rows = all_rows(alloc, text)?;
    let vouchers = rows_read(alloc, rows.as_slice())?;
    Ok(List::new(vouchers))
}

// The records of a text.
fn all_rows(alloc: Global, text: &[u8]) -> Result<Vec<ByteRecord>, FileFault>
    ensures done { IfOk result (λ rows. AreLinesOf text.now (map fields_of rows.items)) }
    ensures refused { IfErr result (λ e. e ≡ FileFault.Memory) }
{
    let reader = ReaderBuilder::new()
        .has_headers(false)
        .flexible(true)
        .from_reader(alloc, text);
    let mut rows = Vec::new(alloc);
    for row in reader.into_byte_records() {
        if rows.push(row?).is_err() {
            return Err(FileFault::Memory);
        }
    }
    Ok(rows)
}

// The vouchers of a file with these lines.
fn rows_read(alloc: Global, rows: &[ByteRecord]) -> Result<Vec<NewVoucher>, FileFault>
    ensures done { IfOk result (λ vouchers.
        rows_read (map fields_of rows.now) ≡ Ok vouchers.items) }
    ensures refused { FailsAsRead result (rows_read (map fields_of rows.now)) }
{
    match rows {
        [names, lines @ ..] if is_header(names) => lines_read(alloc, lines),
        _ => Err(FileFault::Header),
    }
}

// Whether a line names the columns.
fn is_header(row: &ByteRecord) -> bool
    ensures { result ≡ is_header (fields_of row.now) }
{
    (row.len() == 12)
        & (names_four(row, 0, "code", "max_usages", "valid_until", "block_quota")
            & (names_four(row, 4, "allow_ignore_quota", "price_mode", "value", "item")
                & names_four(row, 8, "variation", "quota", "tag", "comment")))
}

// Whether the columns from a place on have these names.
fn names_four(row: &ByteRecord, at: usize, a: &str, b: &str, c: &str, d: &str) -> bool
    requires { at ≤ 8 }
    ensures { result ≡ names_four (fields_of row.now) at a.now b.now c.now d.now }
{
    is_named(row, at, a)
        & (is_named(row, at + 1, b) & (is_named(row, at + 2, c) & is_named(row, at + 3, d)))
}

// The vouchers of the lines below the header.
fn lines_read(alloc: Global, lines: &[ByteRecord]) -> Result<Vec<NewVoucher>, FileFault>
    ensures done { IfOk result (λ vouchers.
        lines_read 0 (map fields_of lines.now) ≡ Ok vouchers.items) }
    ensures refused { FailsAsRead result (lines_read 0 (map fields_of lines.now)) }
{
    let mut vouchers = Vec::new(alloc);
    let mut earlier = 0;
    for line in lines {
        let new = line_read(alloc, earlier, line)?;
        if vouchers.push(new).is_err() {
            return Err(FileFault::Memory);
        }
        earlier += 1;
    }
    Ok(vouchers)
}

// The voucher of a line that comes after so many others.
fn line_read(alloc: Global, earlier: u64, row: &ByteRecord) -> Result<NewVoucher, FileFault>
    ensures done { IfOk result (λ new. line_read earlier (fields_of row.now) ≡ Ok new) }
    ensures within { IfOk result (λ _. earlier ≤ 99999) }
    ensures refused { FailsAsRead result (line_read earlier (fields_of row.now)) }
{
    if earlier >= MOST_LINES {
        return Err(FileFault::TooMany);
    }
    voucher_of(alloc, earlier + 1, row)
}

// Whether it has as many columns, all of them texts.
fn is_line(row: &ByteRecord) -> bool
    ensures { result ≡ is_line (fields_of row.now) }
{
    (row.len() == 12) & (are_columns(row, 0) & (are_columns(row, 4) & are_columns(row, 8)))
}

// Whether the columns from a place on are UTF-8.
fn are_columns(row: &ByteRecord, at: usize) -> bool
    requires { at ≤ 8 }
    ensures { result ≡ are_columns (fields_of row.now) at }
{
    is_column(row, at)
        & (is_column(row, at + 1) & (is_column(row, at + 2) & is_column(row, at + 3)))
}

// The value of a column of a line, where it can be read.
fn known_value<T>(line: u64, at: u64, value: Option<T>) -> Result<T, FileFault>
    ensures { result ≡ known_value line at value }
{
    match value {
        None => Err(FileFault::Column(line, at)),
        Some(value) => Ok(value),
    }
}

// The voucher that a line asks for. A file gives no budget.
#[tactic(auto, unfolding(crate::specs::VoucherFile::voucher_of))]
fn voucher_of(alloc: Global, line: u64, row: &ByteRecord) -> Result<NewVoucher, FileFault>
    ensures done { IfOk result (λ new. voucher_of line (fields_of row.now) ≡ Ok new) }
    ensures refused { FailsAsRead result (voucher_of line (fields_of row.now)) }
{
    if !is_line(row) {
        return Err(FileFault::Line(line));
    }
    let code = column(row, 0);
    if !is_code(code) {
        return Err(FileFault::Column(line, 1));
    }
    let max_usages = known_value(line, 2, uses_in(column(row, 1)))?;
    let valid_until = known_value(line, 3, moment_in(column(row, 2)))?;
    let block_quota = known_value(line, 4, flag_in(column(row, 3)))?;
    let allow_ignore_quota = known_value(line, 5, flag_in(column(row, 4)))?;
    let price_mode = known_value(line, 6, mode_in(column(row, 5)))?;
    let value = known_value(line, 7, value_in(price_mode, column(row, 6)))?;
    let item = known_value(line, 8, id_in(column(row, 7)))?;
    let variation = known_value(line, 9, id_in(column(row, 8)))?;
    let quota = known_value(line, 10, id_in(column(row, 9)))?;
    let tag = column(row, 10);
    if !is_text(tag) {
        return Err(FileFault::Column(line, 11));
    }
    let comment = column(row, 11);
    if !is_text(comment) {
        return Err(FileFault::Column(line, 12));
    }
    Ok(NewVoucher {
        code: Some(Text::copy_of(alloc, code)?),
        max_usages,
        valid_until,
        block_quota,
        allow_ignore_quota,
        price_mode,
        value,
        item,
        variation,
        quota,
        tag: Text::copy_of(alloc, tag)?,
        comment: Text::copy_of(alloc, comment)?,
        budget: None,
    })
}
