//! The methods of a path in a column.

ghost use Rattle.std.specs.Prelude.{◌≡◌, ⊤, IfOk, IfSome, None, string_bytes};
ghost use Rattle.sqlite_value.specs.Value.{owned};
ghost use Rattle.sqlite_value.specs.Order.{column};
ghost use Rattle.sqlite.specs.Values.{bound_value};
ghost use Rattle.file_rows.specs.Cells.{methods, methods_text};
ghost use Rattle.file_rows.specs.Unread.{IsOfNone, UnreadAt};

use crate::column::{Column, value_at};
use base_values::Methods;
use file_schema::RowError;
use sqlite::Row;
use sqlite_value::value::ValueRef;
use std::alloc::Global;

fn methods_text(m: &Methods) -> &'static str
    ensures { result.now ≡ methods_text m.now }
{
    match (m.get, m.post, m.patch, m.delete) {
        (false, false, false, false) => "-",
        (true, false, false, false) => "GET",
        (false, true, false, false) => "POST",
        (true, true, false, false) => "GET, POST",
        (false, false, true, false) => "PATCH",
        (true, false, true, false) => "GET, PATCH",
        (false, true, true, false) => "POST, PATCH",
        (true, true, true, false) => "GET, POST, PATCH",
        (false, false, false, true) => "DELETE",
        (true, false, false, true) => "GET, DELETE",
        (false, true, false, true) => "POST, DELETE",
        (true, true, false, true) => "GET, POST, DELETE",
        (false, false, true, true) => "PATCH, DELETE",
        (true, false, true, true) => "GET, PATCH, DELETE",
        (false, true, true, true) => "POST, PATCH, DELETE",
        (true, true, true, true) => "GET, POST, PATCH, DELETE",
    }
}

/// The methods of a path, which an answer may name, as a parameter of a statement.
pub fn bind_methods<'a>(allow: &Option<Methods>) -> ValueRef<'a>
    ensures { bound_value (owned result) ≡ methods allow.now }
{
    match allow {
        None => ValueRef::Text(b""),
        Some(m) => ValueRef::Text(methods_text(m).as_bytes()),
    }
}

// The methods that a text names.
fn methods_in(text: &str) -> Option<Methods>
    ensures named { IfSome result (λ m. text.now ≡ methods_text m) }
    ensures other { result ≡ None → IsOfNone methods_text text.now }
{
    let (get, post, patch, delete) = match text {
        "-" => (false, false, false, false),
        "GET" => (true, false, false, false),
        "POST" => (false, true, false, false),
        "GET, POST" => (true, true, false, false),
        "PATCH" => (false, false, true, false),
        "GET, PATCH" => (true, false, true, false),
        "POST, PATCH" => (false, true, true, false),
        "GET, POST, PATCH" => (true, true, true, false),
        "DELETE" => (false, false, false, true),
        "GET, DELETE" => (true, false, false, true),
        "POST, DELETE" => (false, true, false, true),
        "GET, POST, DELETE" => (true, true, false, true),
        "PATCH, DELETE" => (false, false, true, true),
        "GET, PATCH, DELETE" => (true, false, true, true),
        "POST, PATCH, DELETE" => (false, true, true, true),
        "GET, POST, PATCH, DELETE" => (true, true, true, true),
        _ => return None,
    };
    Some(Methods {
        get,
        post,
        patch,
        delete,
    })
}

/// The methods of a path, which an answer may name, in a column.
#[derive(Clone, Copy, PartialEq, Eq)]
pub struct Allow {
    pub named: Option<Methods>,
}

impl Column for Allow {
    ghost cell = { λ a. methods a.named };

    ghost fits = { λ a. ⊤ };

    fn bind(&self) -> Result<ValueRef<'_>, RowError> {
        Ok(bind_methods(&self.named))
    }

    fn read(_: Global, row: &Row, at: usize) -> Result<Allow, RowError> {
        match read_methods(row, at) {
            Ok(named) => Ok(Allow { named }),
            Err(error) => Err(error),
        }
    }
}

/// The methods in a column, which may be empty. Refusals: 62 where the text names none, 6.
pub(crate) fn read_methods(row: &Row, at: usize) -> Result<Option<Methods>, RowError>
    ensures value { IfOk result (λ allow. column row.now at ≡ methods allow) }
    ensures refused { UnreadAt row.now at result (IsOfNone methods (column row.now at)) }
{
    let text = match value_at::<String>(row, at) {
        Ok(text) => text,
        Err(error) => return Err(error),
    };
    if text.is_empty() {
        return Ok(None);
    }
    match methods_in(&text) {
        None => Err(RowError::Damaged),
        some => Ok(some),
    }
}
