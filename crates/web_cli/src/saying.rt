//! What a command on a shop's file writes.

ghost use Rattle.std.specs.Prelude.{◌≡◌, []};
ghost use Rattle.web_cli.specs.Saying.{OnPage, WritesLine, end_said};

use crate::fault::RunFault;
use base_devices::{Drain, Refused};
use web_connection::Failure;
use web_http::write_all;

// Writes a text, and ends the line.
fn end_line<W: Drain>(writer: &mut W, text: &[u8]) -> Result<(), Refused>
    ensures { OnPage W.Drain (WritesLine [] text.now) writer.old writer.new result }
{
    match write_all(writer, text) {
        Ok(()) => write_all(writer, b"\n"),
        Err(refused) => Err(refused),
    }
}

/// Writes a line of two texts. Where the writer refuses, a part of it was written, and the writer has counted it.
pub fn say<W: Drain>(writer: &mut W, first: &[u8], second: &[u8]) -> Result<(), Refused>
    ensures { OnPage W.Drain (WritesLine first.now second.now) writer.old writer.new result }
{
    match write_all(writer, first) {
        Ok(()) => end_line(writer, second),
        Err(refused) => Err(refused),
    }
}

/// How a command ends that was done, by whether what it says was written.
pub fn end_said(written: Result<(), Refused>) -> Result<(), RunFault>
    ensures { result ≡ end_said written }
{
    match written {
        Ok(()) => Ok(()),
        Err(_) => Err(RunFault::Run(Failure::Output)),
    }
}
