//! JSON written behind a text, piece by piece: of a long list never more than one row stands as a value.

ghost use Rattle.std.specs.Prelude.{◌≡◌, ◌∷◌, map, false};
ghost use Rattle.serde_json.specs.Data.{Data};
ghost use Rattle.serde_json.specs.View.{view};
ghost use Rattle.serde_json.specs.Written.{has_float, compact_text};
ghost use Rattle.web_json.specs.Pieces.{object_opened, inside, member_text, row_text};
ghost use Rattle.web_json.specs.Values.{list};
ghost use Rattle.web_json.specs.Made.{AppendsJson, AppendsText};

use serde_json::Value;
use std::alloc::{AllocError, Global};

/// Appends these characters.
pub fn append_text(out: &mut Vec<u8>, text: &str) -> Result<(), AllocError>
    ensures { AppendsText result out.old out.new text.now }
{
    out.extend_from_slice(text.as_bytes())
}

/// Appends a value, without spaces.
pub fn append_value(alloc: Global, out: &mut Vec<u8>, value: &Value) -> Result<(), AllocError>
    requires { has_float (view value.now) ≡ false }
    ensures { AppendsJson result out.old out.new (view value.now) }
{
    let text = value.to_vec(alloc)?;
    out.extend_from_slice(text.as_slice())
}

/// Appends an object without its closing brace, so that more members can follow.
pub fn append_opened(alloc: Global, out: &mut Vec<u8>, object: &Value) -> Result<(), AllocError>
    requires { has_float (view object.now) ≡ false }
    ensures { AppendsText result out.old out.new (object_opened (compact_text (view object.now))) }
{
    let text = object.to_vec(alloc)?;
    out.extend_from_slice(&text[..text.len().saturating_sub(1)])
}

/// Appends the members of an object, without its braces.
fn append_inside(alloc: Global, out: &mut Vec<u8>, object: &Value) -> Result<(), AllocError>
    requires { has_float (view object.now) ≡ false }
    ensures { AppendsText result out.old out.new (inside (compact_text (view object.now))) }
{
    let text = object.to_vec(alloc)?;
    let text = text.as_slice();
    if text.len() < 2 {
        return Ok(());
    }
    out.extend_from_slice(&text[1..text.len() - 1])
}

/// Appends the members of an object, behind those that stand.
pub(crate) fn append_members(
    alloc: Global,
    out: &mut Vec<u8>,
    object: &Value,
) -> Result<(), AllocError>
    requires { has_float (view object.now) ≡ false }
    ensures { AppendsText result out.old out.new (44 ∷ inside (compact_text (view object.now))) }
{
    append_text(out, ",")?;
    append_inside(alloc, out, object)
}

/// How a row of a list is written.
pub trait WriteRow<T> {
    // What the row is as JSON.
    ghost body: { Self → T → Data };

    /// Appends a row.
    fn append(&self, alloc: Global, out: &mut Vec<u8>, row: &T) -> Result<(), AllocError>
        ensures { AppendsJson result out.old out.new (body self.now row.now) };
}

/// Appends a row, behind a comma where one stands before it.
fn append_row<T, W: WriteRow<T>>(
    alloc: Global,
    out: &mut Vec<u8>,
    writer: &W,
    later: bool,
    row: &T,
) -> Result<(), AllocError>
    ensures { AppendsText result out.old out.new
        (row_text later (W.WriteRow.body writer.now row.now)) }
{
    if later {
        append_text(out, ",")?;
    }
    writer.append(alloc, out, row)
}

/// Appends a list, row by row.
fn append_list<T, W: WriteRow<T>>(
    alloc: Global,
    out: &mut Vec<u8>,
    writer: &W,
    rows: &[T],
) -> Result<(), AllocError>
    ensures { AppendsJson result out.old out.new
        (list (map (W.WriteRow.body writer.now) rows.now)) }
{
    append_text(out, "[")?;
    let mut later = false;
    for row in rows {
        append_row(alloc, out, writer, later, row)?;
        later = true;
    }
    append_text(out, "]")
}

/// Appends a key, and a list under it.
pub fn append_key_and_list<T, W: WriteRow<T>>(
    alloc: Global,
    out: &mut Vec<u8>,
    key: &str,
    writer: &W,
    rows: &[T],
) -> Result<(), AllocError>
    ensures { AppendsText result out.old out.new
        (member_text key.now (list (map (W.WriteRow.body writer.now) rows.now))) }
{
    append_value(alloc, out, &Value::try_from_str(alloc, key)?)?;
    append_text(out, ":")?;
    append_list(alloc, out, writer, rows)
}

/// Appends a list as one more member, behind those that stand.
pub fn append_list_member<T, W: WriteRow<T>>(
    alloc: Global,
    out: &mut Vec<u8>,
    key: &str,
    writer: &W,
    rows: &[T],
) -> Result<(), AllocError>
    ensures { AppendsText result out.old out.new
        (44 ∷ member_text key.now (list (map (W.WriteRow.body writer.now) rows.now))) }
{
    append_text(out, ",")?;
    append_key_and_list(alloc, out, key, writer, rows)
}
