//! What a command line comes to.

ghost use Rattle.std.specs.Prelude.{map, option_map, string_bytes};
ghost use Rattle.app_run.specs.Feed.{OnPorts};
ghost use Rattle.app_run.specs.Line.{AddsGiven, Ran, ReportsWhere};
ghost use Rattle.web_cli.specs.Saying.{OnPage};
ghost use Rattle.web_cli.specs.Values.{report_of};

use crate::feeding::feed_texts;
use crate::file_commands::{
    add_token, export_shop, import_vouchers, make_shop, report_shop, run_serve, work_shop,
};
use crate::typed::add_typed_token;
use base_devices::{Drain, Source};
use std::alloc::Global;
use web_cli::{
    Console, HouseFiles, Line, LineEnd, Report, RunFault, answer_line, plain_words, read_line,
    report_of, tell_fault, tell_report, tell_run,
};

// What a line of `report` comes to.
fn report_file<O: Console, F: HouseFiles, W: Drain>(
    rt: &O,
    alloc: Global,
    files: &F,
    file: &str,
    name: &str,
    list: Option<&str>,
    writer: &mut W,
) -> LineEnd
    ensures { OnPage W.Drain
        (ReportsWhere (report_of name.now (option_map (λ t. t.now) list.entry)) F.reported file.now)
        writer.old writer.new result }
{
    match report_of(name, list) {
        Ok(report) => tell_run(rt, report_shop(alloc, files, file, report, writer)),
        Err(fault) => tell_report(rt, name, fault),
    }
}

// What a line of `token-add` comes to: the token is its word, or for `-` the first line of the reader.
fn add_given_token<O: Console, F: HouseFiles, R: Source, W: Drain>(
    rt: &O,
    alloc: Global,
    files: &F,
    file: &str,
    token: &str,
    reader: &mut R,
    writer: &mut W,
) -> LineEnd
    ensures { OnPorts R.Source W.Drain (AddsGiven F.added file.now token.now)
        reader.old writer.old reader.new writer.new result }
{
    if token == "-" {
        tell_run(rt, add_typed_token(alloc, files, file, reader, writer))
    } else {
        tell_run(rt, add_token(alloc, files, file, token, writer))
    }
}

/// Runs a command line, whose first word is the program, from the reader to the writer. What it asks for decides: the command
/// that it names, help, or a wrong line; the last two, and a value that can't be read, read nothing and write nothing. The commands on a
/// shop's file read nothing, but for `token-add FILE -`.
pub fn run<O: Console, F: HouseFiles, R: Source, W: Drain>(
    rt: &O,
    alloc: Global,
    files: &F,
    words: &[String],
    reader: &mut R,
    writer: &mut W,
) -> LineEnd
    ensures { OnPorts R.Source W.Drain
        (Ran F.HouseFiles (map string_bytes words.now))
        reader.old writer.old reader.new writer.new result }
{
    let Ok(words) = plain_words(alloc, words) else {
        return tell_fault(rt, RunFault::Memory);
    };
    match read_line(alloc, words.as_slice()) {
        Ok(Line::Feed(line)) => {
            tell_run(rt, feed_texts(alloc, line.from, line.step, reader, writer))
        }
        Ok(Line::Init(line)) => tell_run(
            rt,
            make_shop(alloc, files, line.file, line.organizer, line.event, writer),
        ),
        Ok(Line::TokenAdd(line)) => {
            add_given_token(rt, alloc, files, line.file, line.token, reader, writer)
        }
        Ok(Line::Serve(line)) => tell_run(rt, run_serve(alloc, files, line, writer)),
        Ok(Line::Periodic(line)) => tell_run(rt, work_shop(alloc, files, line.file, writer)),
        Ok(Line::Report(line)) => {
            report_file(rt, alloc, files, line.file, line.report, line.list, writer)
        }
        Ok(Line::Export(line)) => tell_run(rt, export_shop(alloc, files, line.file, writer)),
        Ok(Line::Import(line)) => tell_run(
            rt,
            import_vouchers(alloc, files, line.file, line.csv, writer),
        ),
        Ok(Line::Migrate(line)) => tell_run(
            rt,
            report_shop(alloc, files, line.file, Report::Version, writer),
        ),
        Err(error) => answer_line(rt, &error),
    }
}
