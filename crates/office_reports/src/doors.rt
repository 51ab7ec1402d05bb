//! Who came in by a check-in list, as a text.

ghost use Rattle.std.specs.Prelude.{◌≡◌, ◌++◌, IfOk, OnOk};
ghost use Rattle.model_invariant.specs.Sound.{IsSound};
ghost use Rattle.office_reports.specs.DoorText.{door_columns, door_line, door_text_of, status_line};
ghost use Rattle.office_reports.specs.ItemLines.{door_lines};

use crate::columns::{append_first, append_number};
use crate::entries::{Entries, ItemEntries, all_entries};
use base_values::Body;
use book_catalogue::Catalogue;
use book_usage::Book;
use decide_door::status;
use model_catalogue::Item;
use model_commands::DoorStatus;
use std::alloc::{AllocError, Global};

/// Who came in by a check-in list, as a text: a line for each item that the list is for, by id, and one for all. A line has the item's number
/// in six columns; how many positions belong to the list, how many of them have entered, and how many are inside, each behind a blank in
/// nine; and behind two blanks its name. None where no list has the number.
pub fn door_text<B: Book>(book: &B, alloc: Global, list: u64) -> Result<Option<Body>, AllocError>
    requires { IsSound (B.state book.now) }
    ensures { IfOk result (λ text. text ≡ door_text_of list (B.state book.now).lists) }
{
    let Some(list) = book.checkin_list(list) else {
        return Ok(None);
    };
    let rows = all_entries(book, alloc, list)?;
    let status = status(book, alloc, list)?;
    let mut text = Vec::new(alloc);
    append_entries(&mut text, book.catalogue(), &rows)?;
    append_status(&mut text, &status)?;
    Ok(Some(Body::new(text)))
}

// Appends the columns of a line.
fn append_columns(
    text: &mut Vec<u8>,
    positions: u64,
    entered: u64,
    inside: u64,
) -> Result<(), AllocError>
    ensures { OnOk result (text.new.items
        ≡ text.old.items ++ door_columns positions entered inside) }
{
    append_number(text, 9, positions)?;
    append_number(text, 9, entered)?;
    append_number(text, 9, inside)
}

// Appends the line of an item.
fn append_item(text: &mut Vec<u8>, item: &Item, entries: &Entries) -> Result<(), AllocError>
    ensures { OnOk result (text.new.items ≡ text.old.items ++ door_line item.now entries.now) }
{
    append_first(text, 6, item.id)?;
    append_columns(text, entries.positions, entries.entered, entries.inside)?;
    text.extend_from_slice(b"  ")?;
    text.extend_from_slice(item.name.as_str().as_bytes())?;
    text.extend_from_slice(b"\n")
}

// Appends the line of each item.
fn append_entries(
    text: &mut Vec<u8>,
    catalogue: &Catalogue,
    rows: &[ItemEntries],
) -> Result<(), AllocError>
    ensures { OnOk result (text.new.items
        ≡ text.old.items ++ door_lines catalogue.now.lists rows.now) }
{
    for row in rows {
        if let Some(item) = catalogue.item(row.item) {
            append_item(text, item, &row.entries)?;
        }
    }
    Ok(())
}

// Appends the line of all positions.
fn append_status(text: &mut Vec<u8>, status: &DoorStatus) -> Result<(), AllocError>
    ensures { OnOk result (text.new.items ≡ text.old.items ++ status_line status.now) }
{
    text.extend_from_slice(b" total")?;
    append_columns(text, status.positions, status.entered, status.inside)?;
    text.extend_from_slice(b"\n")
}
