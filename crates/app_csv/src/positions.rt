//! The lines of an export, as a CSV file.

ghost use Rattle.std.specs.Prelude.{◌≡◌, ◌++◌, [], IfOk, OnOk, length, map};
ghost use Rattle.std.specs.List.{concat};
ghost use Rattle.csv.specs.Records.{fields_of, partial_of};
ghost use Rattle.base_values.specs.Codes.{order_code};
ghost use Rattle.base_values.specs.Money.{cents_text};
ghost use Rattle.app_csv.specs.Handing.{IsReady, gathered_text, settled_text};
ghost use Rattle.app_csv.specs.Lines.{Gains, GainsText, IsAtLine};
ghost use Rattle.app_csv.specs.PositionLines.{code_or_empty, header_line, row_fields, row_line, rows_text};

use crate::lines::{append_line, push_number, push_number_or_empty};
use base_values::{Body, Cents, cents_text};
use csv::{ByteRecord, Writer, WriterBuilder};
use model_export::ExportRow;
use model_rows::code_of;
use std::alloc::{AllocError, Global};
use std::mem;

/// Lines of an export that are gathered.
#[derive(Drop)]
pub struct Lines {
    text: Writer<Vec<u8>>,
    fields: ByteRecord,
}

impl Lines {
    /// The line of the columns' names.
    pub fn new(alloc: Global) -> Result<Lines, AllocError>
        ensures ready { IfOk result IsReady }
        ensures names { IfOk result (λ lines. gathered_text lines ≡ header_line) }
    {
        let mut text = WriterBuilder::new().from_writer(Vec::new(alloc));
        append_header(&mut text, alloc)?;
        Ok(Lines {
            text,
            fields: ByteRecord::new(alloc),
        })
    }

    /// Adds the line of a row: the order's code, the position's number there, the letter of the order's status, the numbers of item and
    /// variation, the price with two decimals, the code of the voucher, and the secret of the ticket; what isn't there is empty.
    pub(crate) fn add(&mut self, alloc: Global, row: &ExportRow) -> Result<(), AllocError>
        ensures ready { OnOk result (IsReady self.old → IsReady self.new) }
        ensures text { OnOk result (IsReady self.old
            → gathered_text self.new ≡ gathered_text self.old ++ row_line row.now) }
    {
        self.fields.clear();
        push_row(&mut self.fields, alloc, row)?;
        append_line(&mut self.text, &self.fields)
    }

    /// The bytes that are gathered, but for the last ones, at most 8,192.
    pub(crate) fn len(&self) -> usize
        ensures { result ≡ length (settled_text self.now) }
    {
        self.text.get_ref().len()
    }

    /// Takes the text out, and leaves none.
    pub(crate) fn take(&mut self, alloc: Global) -> Result<Vec<u8>, AllocError>
        ensures ready { IsReady self.new }
        ensures empty { gathered_text self.new ≡ [] }
        ensures text { IfOk result (λ text. text.items ≡ gathered_text self.old) }
    {
        let fresh = WriterBuilder::new().from_writer(Vec::new(alloc));
        match mem::replace(&mut self.text, fresh).into_inner() {
            Ok(text) => Ok(text),
            Err(_) => Err(AllocError),
        }
    }
}

/// Rows of an export as a CSV file: a line of the columns' names, and below it the line of each.
pub fn export_positions(alloc: Global, rows: &[ExportRow]) -> Result<Body, AllocError>
    ensures { IfOk result (λ text. text ≡ rows_text rows.now) }
{
    let mut lines = Lines::new(alloc)?;
    add_rows(&mut lines, alloc, rows)?;
    Ok(Body::new(lines.take(alloc)?))
}

// Adds the line of each of these rows.
fn add_rows(lines: &mut Lines, alloc: Global, rows: &[ExportRow]) -> Result<(), AllocError>
    requires { IsReady lines.old }
    ensures { OnOk result (gathered_text lines.new
        ≡ gathered_text lines.old ++ concat (map row_line rows.now)) }
{
    for row in rows {
        lines.add(alloc, row)?;
    }
    Ok(())
}

// Appends the names of the columns.
fn append_header(writer: &mut Writer<Vec<u8>>, alloc: Global) -> Result<(), AllocError>
    ensures line { OnOk result (IsAtLine writer.old → IsAtLine writer.new) }
    ensures text { OnOk result (GainsText header_line writer.old writer.new) }
{
    let names = ByteRecord::from_fields(
        alloc,
        &[
            "order".as_bytes(),
            "positionid".as_bytes(),
            "status".as_bytes(),
            "item".as_bytes(),
            "variation".as_bytes(),
            "price".as_bytes(),
            "voucher".as_bytes(),
            "secret".as_bytes(),
        ],
    )?;
    append_line(writer, &names)
}

// Adds the fields of a row.
fn push_row(fields: &mut ByteRecord, alloc: Global, row: &ExportRow) -> Result<(), AllocError>
    requires fields { fields_of fields.old ≡ [] }
    requires whole { partial_of fields.old ≡ [] }
    ensures { OnOk result (fields_of fields.new ≡ row_fields row.now) }
{
    push_code(fields, alloc, row.order)?;
    push_number(fields, u64::from(row.positionid))?;
    fields.push_field(row.status.letter().as_bytes())?;
    push_number(fields, row.item)?;
    push_number_or_empty(fields, row.variation)?;
    push_price(fields, alloc, row.price)?;
    fields.push_field(voucher_code(row).as_bytes())?;
    fields.push_field(row.secret.as_str().as_bytes())
}

// Adds the code of the order of this number.
fn push_code(fields: &mut ByteRecord, alloc: Global, order: u64) -> Result<(), AllocError>
    requires { partial_of fields.old ≡ [] }
    ensures { OnOk result (Gains (order_code order) fields.old fields.new) }
{
    let code = code_of(alloc, order)?;
    fields.push_field(code.as_str().as_bytes())
}

// Adds a price.
fn push_price(fields: &mut ByteRecord, alloc: Global, price: Cents) -> Result<(), AllocError>
    requires { partial_of fields.old ≡ [] }
    ensures { OnOk result (Gains (cents_text price) fields.old fields.new) }
{
    let price = cents_text(alloc, price)?;
    fields.push_field(price.as_bytes())
}

// The code of a row's voucher; an empty text where there is none.
fn voucher_code(row: &ExportRow) -> &str
    ensures { result.now ≡ code_or_empty row.now.voucher }
{
    match &row.voucher {
        None => "",
        Some(code) => code.as_str(),
    }
}
