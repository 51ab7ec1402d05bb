//! The commands on a shop's file.

ghost use Rattle.std.specs.Prelude.{◌≡◌, ◌&&◌, option_map};
ghost use Rattle.base_values.specs.Slugs.{is_slug};
ghost use Rattle.web_cli.specs.Saying.{AddsToken, ExportsFile, ImportsFile, MakesShop, OnPage, ReportsFile, ServesFile, Tells, WorksFile, name_at_fault};

use base_devices::Drain;
use base_values::{Body, is_slug};
use itoa::Buffer;
use std::alloc::Global;
use web_cli::{
    Argument, HouseFiles, Report, RunFault, ServeLine, ServeOptions, end_said, is_token,
    read_options, say,
};
use web_http::write_all;

// Whether both are short names.
fn are_slugs(organizer: &str, event: &str) -> bool
    ensures { result ≡ (is_slug organizer.now && is_slug event.now) }
{
    is_slug(organizer) & is_slug(event)
}

// Which of the two names is at fault where one is none: the organizer's, or else the event's.
fn name_at_fault(organizer: &str) -> Argument
    ensures { result ≡ name_at_fault (is_slug organizer.now) }
{
    if is_slug(organizer) {
        Argument::Event
    } else {
        Argument::Organizer
    }
}

/// `init`: makes a shop in a new file and says `ready`. A name that is no slug is fault 84, and then no file is asked for.
pub fn make_shop<F: HouseFiles, W: Drain>(
    alloc: Global,
    files: &F,
    file: &str,
    organizer: &str,
    event: &str,
    writer: &mut W,
) -> Result<(), RunFault>
    ensures { OnPage W.Drain (MakesShop F.made file.now organizer.now event.now)
        writer.old writer.new result }
{
    if !are_slugs(organizer, event) {
        return Err(RunFault::Argument(name_at_fault(organizer)));
    }
    match files.make(alloc, file, organizer, event) {
        Ok(()) => end_said(say(writer, b"ready", b"")),
        Err(fault) => Err(fault),
    }
}

/// `token-add`: adds a token to the shop in a file and says `token N`, its number. A text that is no token is fault 84, and then no
/// file is asked for.
pub fn add_token<F: HouseFiles, W: Drain>(
    alloc: Global,
    files: &F,
    file: &str,
    token: &str,
    writer: &mut W,
) -> Result<(), RunFault>
    ensures { OnPage W.Drain (AddsToken F.added file.now token.now) writer.old writer.new result }
{
    if !is_token(token) {
        return Err(RunFault::Argument(Argument::Token));
    }
    match files.add_token(alloc, file, token) {
        Ok(number) => {
            let mut buffer = Buffer::new();
            end_said(say(writer, b"token ", buffer.format(number).as_bytes()))
        }
        Err(fault) => Err(fault),
    }
}

/// `serve`: serves the shop in a file at an address, and says `listening on ADDR` once callers can come. A value that can't be read is
/// fault 84, and then no file is asked for.
pub fn run_serve<F: HouseFiles, W: Drain>(
    alloc: Global,
    files: &F,
    line: ServeLine<'_>,
    writer: &mut W,
) -> Result<(), RunFault>
    ensures { OnPage W.Drain (ServesFile F.served line.entry.file.now line.entry.listen.now
        (option_map (λ t. t.now) line.entry.connections)) writer.old writer.new result }
{
    match read_options(line.listen, line.connections) {
        Ok((addr, connections)) => {
            let options = ServeOptions {
                addr,
                text: line.listen,
                connections,
                log: line.log,
            };
            files.serve(alloc, line.file, &options, writer)
        }
        Err(argument) => Err(RunFault::Argument(argument)),
    }
}

/// `periodic`: does the periodic work of the shop in a file, and says what was done, `expired E, deleted D, sent S`.
pub fn work_shop<F: HouseFiles, W: Drain>(
    alloc: Global,
    files: &F,
    file: &str,
    writer: &mut W,
) -> Result<(), RunFault>
    ensures { OnPage W.Drain (WorksFile F.worked file.now) writer.old writer.new result }
{
    match files.work(alloc, file) {
        Ok(done) => end_said(say(writer, done.as_slice(), b"")),
        Err(fault) => Err(fault),
    }
}

// Tells a text of lines as it is, where there is one.
fn tell<W: Drain>(writer: &mut W, came: Result<Body, RunFault>) -> Result<(), RunFault>
    ensures { OnPage W.Drain (Tells (λ text. text) came) writer.old writer.new result }
{
    match came {
        Ok(text) => end_said(write_all(writer, text.as_slice())),
        Err(fault) => Err(fault),
    }
}

/// `report` and `migrate`: tells a report on the shop in a file, as a text of lines.
pub fn report_shop<F: HouseFiles, W: Drain>(
    alloc: Global,
    files: &F,
    file: &str,
    report: Report,
    writer: &mut W,
) -> Result<(), RunFault>
    ensures { OnPage W.Drain (ReportsFile F.reported file.now report) writer.old writer.new result }
{
    tell(writer, files.report(alloc, file, report))
}

/// `export`: writes the order positions of the shop in a file as CSV, while they are read.
pub fn export_shop<F: HouseFiles, W: Drain>(
    alloc: Global,
    files: &F,
    file: &str,
    writer: &mut W,
) -> Result<(), RunFault>
    ensures { OnPage W.Drain (ExportsFile F.exported file.now) writer.old writer.new result }
{
    files.export(alloc, file, writer)
}

/// `import-vouchers`: adds the vouchers of a CSV file to the shop in a file, and tells of each row what became of it, as a text of lines.
pub fn import_vouchers<F: HouseFiles, W: Drain>(
    alloc: Global,
    files: &F,
    file: &str,
    csv: &str,
    writer: &mut W,
) -> Result<(), RunFault>
    ensures { OnPage W.Drain
        (ImportsFile F.imported file.now csv.now) writer.old writer.new result }
{
    tell(writer, files.import(alloc, file, csv))
}
