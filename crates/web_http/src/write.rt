//! Answers: the head is gathered and written at once, and the body after it. No memory is taken.

ghost use Rattle.std.specs.Prelude.{◌≡◌};
ghost use Rattle.web_http.specs.Text.{content, answer_text, text, fault_text};
ghost use Rattle.web_http.specs.Written.{Writes, writer_page};

use crate::answer_head::{head_of, when};
use crate::fault::FrameFault;
use base_devices::{Drain, Refused};
use base_values::{Answer, Methods, StatusCode};

/// Writes the bytes, as many at a time as the writer takes.
/// Where the writer refuses, a part of them was written, and the writer has counted it.
pub fn write_all<W: Drain>(writer: &mut W, bytes: &[u8]) -> Result<(), Refused>
    ensures { Writes result bytes.now
        (writer_page W.Drain writer.old) (writer_page W.Drain writer.new) }
{
    let mut at = 0;
    while at < bytes.len() {
        match writer.write(&bytes[at..]) {
            Ok(n) => at += n,
            Err(refused) => return Err(refused),
        }
    }
    Ok(())
}

// The body, which a 204 lacks.
fn content(status: StatusCode, body: &[u8]) -> &[u8]
    ensures { result.now ≡ content status body.now }
{
    when(status.as_u16() != 204, body)
}

// Writes the answer of that status, its head and then its body.
fn write_text<W: Drain>(
    writer: &mut W,
    status: StatusCode,
    allow: Option<Methods>,
    body: &[u8],
    closes: bool,
) -> Result<(), Refused>
    ensures { Writes result (answer_text status allow body.now closes)
        (writer_page W.Drain writer.old) (writer_page W.Drain writer.new) }
{
    let head = head_of(status, allow, body.len(), closes);
    match write_all(writer, head.as_slice()) {
        Ok(()) => write_all(writer, content(status, body)),
        Err(refused) => Err(refused),
    }
}

/// Writes an answer, which says `Connection: close` where the connection ends after it.
/// Where the writer refuses, a part of its text was written, and the writer has counted it.
pub fn write_answer<W: Drain>(writer: &mut W, answer: &Answer, closes: bool) -> Result<(), Refused>
    ensures { Writes result (text answer.now closes)
        (writer_page W.Drain writer.old) (writer_page W.Drain writer.new) }
{
    match answer {
        Answer::Decided(response) => write_text(
            writer,
            response.status,
            response.allow,
            response.body.as_slice(),
            closes,
        ),
        Answer::Unavailable => write_text(
            writer,
            StatusCode::SERVICE_UNAVAILABLE,
            None,
            b"{\"detail\":\"Service unavailable.\"}",
            closes,
        ),
    }
}

/// Writes the answer of a fault, after which the connection ends.
/// Where the writer refuses, a part of its text was written, and the writer has counted it.
pub fn write_fault<W: Drain>(writer: &mut W, fault: FrameFault) -> Result<(), Refused>
    ensures { Writes result (fault_text fault)
        (writer_page W.Drain writer.old) (writer_page W.Drain writer.new) }
{
    write_text(writer, fault.status(), None, fault.body().as_bytes(), true)
}
