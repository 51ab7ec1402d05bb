//! `token-add FILE -`: the token is the first line of the reader.

ghost use Rattle.std.specs.Prelude.{◌≡◌, ◌+◌, ◌≤◌, [], None, take, IfOk, OnOk, OnErr};
ghost use Rattle.std.specs.Io.KnownBytes.{IsAtEnd};
ghost use Rattle.base_devices.specs.Reported.{Gives};
ghost use Rattle.web_cli.specs.Saying.{OnPage};
ghost use Rattle.app_run.specs.Feed.{OnPorts};
ghost use Rattle.app_run.specs.Line.{AddsLine, AddsTyped};
ghost use Rattle.app_run.specs.Typed.{IsFirstLine, byte_of, uncut};

use crate::file_commands::add_token;
use base_devices::{Drain, Refused, Source};
use std::alloc::Global;
use web_cli::{Argument, HouseFiles, RunFault};
use web_connection::Failure;

// More bytes than a token and the end of its line have.
const MOST: usize = 256;

// Reads one byte, none at the end.
fn read_byte<R: Source>(reader: &mut R) -> Result<Option<u8>, Refused>
    ensures given { IfOk result (λ b. Gives (R.left reader.old) (byte_of b) (R.left reader.new)) }
    ensures ended { IfOk result (λ b. b ≡ None → IsAtEnd (R.left reader.new)) }
    ensures kept { OnErr result (Gives (R.left reader.old) [] (R.left reader.new)) }
    ensures well { OnOk result (R.failures reader.new ≡ R.failures reader.old) }
    ensures failed { OnErr result (R.failures reader.new ≡ R.failures reader.old + 1) }
    ensures calls { R.calls reader.new ≡ R.calls reader.old + 1 }
{
    let mut byte = [0];
    match reader.read(&mut byte) {
        Ok(0) => Ok(None),
        Ok(_) => Ok(Some(byte[0])),
        Err(refused) => Err(refused),
    }
}

// Reads the first line of a reader, up to its line feed, the end of the input or 256 bytes, and says how many bytes the line has.
fn read_first_line<R: Source>(reader: &mut R, line: &mut [u8; MOST]) -> Result<usize, Refused>
    ensures came { IfOk result
        (λ n. IsFirstLine (take n line.new) (R.left reader.old) (R.left reader.new)) }
    ensures fits { IfOk result (λ n. n ≤ 256) }
    ensures well { OnOk result (R.failures reader.new ≡ R.failures reader.old) }
    ensures failed { OnErr result (R.failures reader.new ≡ R.failures reader.old + 1) }
    ensures calls { R.calls reader.new ≤ R.calls reader.old + 256 }
{
    let mut len = 0;
    while len < MOST {
        match read_byte(reader)? {
            None | Some(b'\n') => return Ok(len),
            Some(byte) => {
                line[len] = byte;
                len += 1;
            }
        }
    }
    Ok(len)
}

// A line without the carriage return that it may end with.
fn uncut(line: &[u8]) -> &[u8]
    ensures { result.now ≡ uncut line.now }
{
    match line {
        [text @ .., b'\r'] => text,
        _ => line,
    }
}

// Adds the token that is the text of a line. A line that isn't UTF-8 has none.
fn add_line<F: HouseFiles, W: Drain>(
    alloc: Global,
    files: &F,
    file: &str,
    text: &[u8],
    writer: &mut W,
) -> Result<(), RunFault>
    ensures { OnPage W.Drain (AddsLine F.added file.now text.now) writer.old writer.new result }
{
    match str::from_utf8(text) {
        Ok(token) => add_token(alloc, files, file, token, writer),
        Err(_) => Err(RunFault::Argument(Argument::Token)),
    }
}

/// Adds the token that is the first line of the reader, without the line's end, to the shop in a file, and says `token N`, its number. A
/// reader that fails is fault 82, and a line that is no token 84; then no file is asked for.
pub fn add_typed_token<F: HouseFiles, R: Source, W: Drain>(
    alloc: Global,
    files: &F,
    file: &str,
    reader: &mut R,
    writer: &mut W,
) -> Result<(), RunFault>
    ensures { OnPorts R.Source W.Drain (AddsTyped F.added file.now)
        reader.old writer.old reader.new writer.new result }
{
    let mut line = [0; MOST];
    match read_first_line(reader, &mut line) {
        Ok(n) => add_line(alloc, files, file, uncut(&line[..n]), writer),
        Err(_) => Err(RunFault::Run(Failure::Input)),
    }
}
