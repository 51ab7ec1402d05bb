//! Lines of a CSV file, and their fields.

ghost use Rattle.std.specs.Prelude.{◌≡◌, [], OnOk};
ghost use Rattle.std.specs.Fmt.{decimal};
ghost use Rattle.csv.specs.Records.{fields_of, partial_of};
ghost use Rattle.csv.specs.Writing.{default_writer, row_text};
ghost use Rattle.app_csv.specs.Lines.{Gains, GainsText, IsAtLine, number_or_empty};

use csv::{ByteRecord, Writer};
use itoa::Buffer;
use std::alloc::AllocError;

/// Appends a line of these fields, with commas between them, and quotes where a field needs them.
pub(crate) fn append_line(writer: &mut Writer<Vec<u8>>, row: &ByteRecord) -> Result<(), AllocError>
    ensures line { OnOk result (IsAtLine writer.old → IsAtLine writer.new) }
    ensures text { OnOk result
        (GainsText (row_text default_writer (fields_of row.now)) writer.old writer.new) }
{
    match writer.write_byte_record(row) {
        Ok(()) => Ok(()),
        Err(_) => Err(AllocError),
    }
}

/// Adds a number to the fields of a line.
pub(crate) fn push_number(row: &mut ByteRecord, number: u64) -> Result<(), AllocError>
    requires { partial_of row.old ≡ [] }
    ensures { OnOk result (Gains (decimal number) row.old row.new) }
{
    let mut buffer = Buffer::new();
    row.push_field(buffer.format(number).as_bytes())
}

/// Adds a number to the fields of a line, or an empty field where there is none.
pub(crate) fn push_number_or_empty(
    row: &mut ByteRecord,
    number: Option<u64>,
) -> Result<(), AllocError>
    requires { partial_of row.old ≡ [] }
    ensures { OnOk result (Gains (number_or_empty number) row.old row.new) }
{
    match number {
        None => row.push_field(b""),
        Some(number) => push_number(row, number),
    }
}
