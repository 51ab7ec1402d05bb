//! The words of periodic work, and of an import, on a command line.

ghost use Rattle.std.specs.Prelude.{◌≡◌, ◌++◌, None, IfOk, OnOk};
ghost use Rattle.std.specs.Fmt.{decimal};
ghost use Rattle.app_files.specs.Acting.{untold};
ghost use Rattle.app_files.specs.Imported.{import_words};
ghost use Rattle.app_files.specs.Worked.{work_text, work_words};

use app_csv::verdict_lines;
use base_values::{Body, List, Response, StatusCode, Text};
use itoa::Buffer;
use model_commands::{PeriodicCounts, Reply};
use office_deliveries::Wording;
use std::alloc::{AllocError, Global};

/// Appends a text, and a number behind it.
pub(crate) fn append_count(text: &mut Vec<u8>, name: &str, count: u64) -> Result<(), AllocError>
    ensures { OnOk result (text.new.items ≡ text.old.items ++ (name.now ++ decimal count)) }
{
    let mut buffer = Buffer::new();
    text.extend_from_slice(name.as_bytes())?;
    text.extend_from_slice(buffer.format(count).as_bytes())
}

// What was done, as a text.
fn work_text(alloc: Global, counts: PeriodicCounts) -> Result<Vec<u8>, AllocError>
    ensures { IfOk result (λ text. text.items ≡ work_text counts) }
{
    let mut text = Vec::new(alloc);
    append_count(&mut text, "expired ", counts.expired)?;
    append_count(&mut text, ", deleted ", counts.deleted)?;
    append_count(&mut text, ", sent ", counts.sent)?;
    Ok(text)
}

// The body of a reply that the command doesn't cause.
fn untold(alloc: Global) -> Result<Vec<u8>, AllocError>
    ensures { IfOk result (λ text. text.items ≡ untold) }
{
    let mut text = Vec::new(alloc);
    text.extend_from_slice(b"{}")?;
    Ok(text)
}

/// The words of periodic work: what was done, as `expired E, deleted D, sent S`. Any other reply is `{}`.
#[derive(Clone, Copy, PartialEq, Eq)]
pub struct WorkWords;

impl Wording for WorkWords {
    ghost words = { λ _. work_words };

    fn words(&self, alloc: Global, reply: &Reply) -> Result<Response, AllocError> {
        let text = match reply {
            Reply::Periodic(counts) => work_text(alloc, *counts)?,
            _ => untold(alloc)?,
        };
        Ok(told(text))
    }
}

/// The words of an import: a line `CODE VERDICT` for each row. Any other reply is `{}`.
#[derive(Drop)]
pub struct ImportWords {
    /// The codes of the rows.
    pub codes: List<Text>,
}

impl Wording for ImportWords {
    ghost words = { λ w. import_words w.codes };

    fn words(&self, alloc: Global, reply: &Reply) -> Result<Response, AllocError> {
        let text = match reply {
            Reply::Imported(verdicts) => {
                verdict_lines(alloc, self.codes.as_slice(), verdicts.as_slice())?
            }
            _ => untold(alloc)?,
        };
        Ok(told(text))
    }
}

// A text as an answer.
fn told(text: Vec<u8>) -> Response
    ensures { result ≡ record { status = 200; allow = None; body = text.items } }
{
    Response {
        status: StatusCode::OK,
        allow: None,
        body: Body::new(text),
    }
}
