//! Numbers in columns.

ghost use Rattle.std.specs.Prelude.{◌≡◌, ◌++◌, replicate, OnOk};
ghost use Rattle.std.specs.Fmt.{decimal};
ghost use Rattle.office_reports.specs.Columns.{column, right};

use itoa::Buffer;
use std::alloc::AllocError;

// Appends so many blanks.
fn append_blanks(text: &mut Vec<u8>, count: usize) -> Result<(), AllocError>
    ensures { OnOk result (text.new.items ≡ text.old.items ++ replicate count 32) }
{
    for _ in 0..count {
        text.push(b' ')?;
    }
    Ok(())
}

// Appends a text at the right end of a column that is so wide.
fn append_right(text: &mut Vec<u8>, width: usize, shown: &[u8]) -> Result<(), AllocError>
    ensures { OnOk result (text.new.items ≡ text.old.items ++ right width shown.now) }
{
    append_blanks(text, width.saturating_sub(shown.len()))?;
    text.extend_from_slice(shown)
}

/// Appends a number at the right end of a column of this width, with no blank before it: the first of a line.
pub(crate) fn append_first(text: &mut Vec<u8>, width: usize, number: u64) -> Result<(), AllocError>
    ensures { OnOk result (text.new.items ≡ text.old.items ++ right width (decimal number)) }
{
    let mut buffer = Buffer::new();
    append_right(text, width, buffer.format(number).as_bytes())
}

/// Appends a blank, and behind it a text at the right end of a column of this width.
pub(crate) fn append_column(
    text: &mut Vec<u8>,
    width: usize,
    shown: &[u8],
) -> Result<(), AllocError>
    ensures { OnOk result (text.new.items ≡ text.old.items ++ column width shown.now) }
{
    append_blanks(text, 1)?;
    append_right(text, width, shown)
}

/// Appends a blank, and behind it a number at the right end of a column of this width.
pub(crate) fn append_number(text: &mut Vec<u8>, width: usize, number: u64) -> Result<(), AllocError>
    ensures { OnOk result (text.new.items ≡ text.old.items ++ column width (decimal number)) }
{
    let mut buffer = Buffer::new();
    append_column(text, width, buffer.format(number).as_bytes())
}
