//! The words of a command line: what they ask for.

ghost use Rattle.std.specs.Prelude.{◌≡◌, IfOk, IfErr, Some, codes, map, option_map, string_bytes, false};
ghost use Rattle.clap.specs.Walk.{rule_of, texts};
ghost use Rattle.clap.specs.Words.{app_of, first_of, found_of, kind_of, rows_of};
ghost use Rattle.web_cli.specs.Asked.{IsReason, asked_for, asked_by_line, asked_of, asked_of_few, is_set, is_signed, plain_words, takes_number, text_of};
ghost use Rattle.web_cli.specs.Words.{IsWith, choice, export_app, feed_app, file_app, flag, import_app, init_app, migrate_app, program, report_app, serve_app, switch, token_app, word, work_app};

use clap::{Arg, ArgAction, ArgMatches, Command, Error};
use std::alloc::{AllocError, Global};

// What is said of the file of a command.
const SHOPS_FILE: &str = "The shop's file";

// What follows the program's name where its version is asked for: the version, whose first number is that of the tables which it opens; that
// of the tables; and the kit by which it is proved and compiled, as `rt version` prints it but for the letter of its edition.
const VERSION: &str = "3.0.0\ntables: version 3\nkit: rattle-kit-13 logic dac8208d650f15bf";

/// The version of the program, as `--version` names it first.
pub fn program_version() -> &'static str {
    match VERSION.lines().next() {
        Some(version) => version,
        None => VERSION,
    }
}

/// What a command line asks for.
#[derive(Clone, Copy)]
pub enum Line<'a> {
    /// `feed`: a run over a box office in memory.
    Feed(FeedLine<'a>),
    /// `init`: a shop in a new file.
    Init(InitLine<'a>),
    /// `token-add`: a token for the shop in a file.
    TokenAdd(TokenLine<'a>),
    /// `serve`: the shop in a file, at an address.
    Serve(ServeLine<'a>),
    /// `periodic`: the periodic work of the shop in a file.
    Periodic(FileLine<'a>),
    /// `report`: a report on the shop in a file.
    Report(ReportLine<'a>),
    /// `export`: the order positions of the shop in a file.
    Export(FileLine<'a>),
    /// `import-vouchers`: vouchers of a CSV file for the shop in a file.
    Import(ImportLine<'a>),
    /// `migrate`: the shop in a file is brought to this program's version.
    Migrate(FileLine<'a>),
}

/// The texts that follow `--from` and `--step`.
#[derive(Clone, Copy)]
pub struct FeedLine<'a> {
    /// The text of `--from`.
    pub from: &'a str,
    /// The text of `--step`.
    pub step: &'a str,
}

/// The texts of a line of `init`.
#[derive(Clone, Copy)]
pub struct InitLine<'a> {
    /// The name of the file.
    pub file: &'a str,
    /// The text of `--organizer`.
    pub organizer: &'a str,
    /// The text of `--event`.
    pub event: &'a str,
}

/// The texts of a line of `token-add`.
#[derive(Clone, Copy)]
pub struct TokenLine<'a> {
    /// The name of the file.
    pub file: &'a str,
    /// The token.
    pub token: &'a str,
}

/// The texts of a line of `serve`.
#[derive(Clone, Copy)]
pub struct ServeLine<'a> {
    /// The name of the file.
    pub file: &'a str,
    /// The text of `--listen`.
    pub listen: &'a str,
    /// The text of `--connections`, where it is there.
    pub connections: Option<&'a str>,
    /// Whether `--log` is there.
    pub log: bool,
}

/// The text of a line that names a file alone: one of `periodic`, `export` or `migrate`.
#[derive(Clone, Copy)]
pub struct FileLine<'a> {
    /// The name of the file.
    pub file: &'a str,
}

/// The texts of a line of `report`.
#[derive(Clone, Copy)]
pub struct ReportLine<'a> {
    /// The name of the file.
    pub file: &'a str,
    /// Which report it is.
    pub report: &'a str,
    /// The text of `--list`, where it is there.
    pub list: Option<&'a str>,
}

/// The texts of a line of `import-vouchers`.
#[derive(Clone, Copy)]
pub struct ImportLine<'a> {
    /// The name of the file.
    pub file: &'a str,
    /// The name of the CSV file.
    pub csv: &'a str,
}

// A flag with a text, which may be left out.
fn choice<'a>(alloc: Global, name: &'a str, text: &'a str, help: &'a str) -> Arg<'a>
    ensures rule { rule_of result ≡ choice name.entry.now }
    ensures global { result.global ≡ false }
{
    Arg::new(alloc, name).long(name).value_name(text).help(help)
}

// A flag without a text, which may be left out.
fn switch<'a>(alloc: Global, name: &'a str, help: &'a str) -> Arg<'a>
    ensures rule { rule_of result ≡ switch name.entry.now }
    ensures global { result.global ≡ false }
{
    Arg::new(alloc, name)
        .long(name)
        .action(ArgAction::SetTrue)
        .help(help)
}

// A flag with a text, which has to be there.
fn flag<'a>(alloc: Global, name: &'a str, text: &'a str, help: &'a str) -> Arg<'a>
    ensures rule { rule_of result ≡ flag name.entry.now }
    ensures global { result.global ≡ false }
{
    word(alloc, name, text, help).long(name)
}

// A word that is known by its place, which has to be there.
fn word<'a>(alloc: Global, name: &'a str, text: &'a str, help: &'a str) -> Arg<'a>
    ensures rule { rule_of result ≡ word name.entry.now }
    ensures global { result.global ≡ false }
{
    Arg::new(alloc, name)
        .value_name(text)
        .help(help)
        .required(true)
}

// `feed`, with its help.
fn feed_command<'a>(alloc: Global) -> Result<Command<'a>, AllocError>
    ensures { IfOk result (λ command. app_of command ≡ feed_app) }
{
    Command::new(alloc, "feed")
        .about("Answers raw HTTP requests from standard input, over a box office in memory")
        .after_help("Example:\n  boxoffice feed --from 2026-05-01T10:00:00Z --step 60 < requests")
        .arg(flag(
            alloc,
            "from",
            "MOMENT",
            "The moment of the first request, as 2026-05-01T10:00:00Z",
        ))?
        .arg(flag(
            alloc,
            "step",
            "SECONDS",
            "The seconds from one request to the next, 0 to 31536000",
        ))
}

// A command on the file of a shop, which it names first, with its help and an example.
fn file_command<'a>(
    alloc: Global,
    name: &'a str,
    about: &'a str,
    example: &'a str,
    file: &'a str,
) -> Result<Command<'a>, AllocError>
    ensures { IfOk result (λ command. app_of command ≡ file_app name.entry.now) }
{
    Command::new(alloc, name)
        .about(about)
        .after_help(example)
        .arg(word(alloc, "file", "FILE", file))
}

// `init`, with its help.
fn init_command<'a>(alloc: Global) -> Result<Command<'a>, AllocError>
    ensures { IfOk result (λ command. app_of command ≡ init_app) }
{
    file_command(
        alloc,
        "init",
        "Makes a shop in a new file",
        "Example:\n  boxoffice init hall.db --organizer house --event hall",
        "The file that is made",
    )?
    .arg(flag(
        alloc,
        "organizer",
        "SLUG",
        "The organizer's short name: 1 to 50 letters, digits, -, . and _",
    ))?
    .arg(flag(
        alloc,
        "event",
        "SLUG",
        "The event's short name, of the same letters",
    ))
}

// `token-add`, with its help.
fn token_command<'a>(alloc: Global) -> Result<Command<'a>, AllocError>
    ensures { IfOk result (λ command. app_of command ≡ token_app) }
{
    file_command(
        alloc,
        "token-add",
        "Adds a token to a shop's file, by which requests are let in",
        "Example:\n  boxoffice token-add hall.db SECRET",
        SHOPS_FILE,
    )?
    .arg(word(
        alloc,
        "token",
        "TOKEN",
        "The token: 1 to 254 ASCII letters, digits and signs, without spaces; for - it is the first line of standard input",
    ))
}

// `serve`, with its help.
fn serve_command<'a>(alloc: Global) -> Result<Command<'a>, AllocError>
    ensures { IfOk result (λ command. app_of command ≡ serve_app) }
{
    file_command(
        alloc,
        "serve",
        "Answers HTTP requests at an address, on many connections at once, from a shop's file",
        "Example:\n  boxoffice serve hall.db --listen 127.0.0.1:8080",
        SHOPS_FILE,
    )?
    .arg(flag(
        alloc,
        "listen",
        "ADDR",
        "The IP address and port, as 127.0.0.1:8080 or [::1]:8080",
    ))?
    .arg(choice(
        alloc,
        "connections",
        "N",
        "Ends after N connections, 0 to 1000000; without it, or with 0, never",
    ))?
    .arg(switch(
        alloc,
        "log",
        "Writes a line for each request and each connection to standard error",
    ))
}

// `periodic`, with its help.
fn work_command<'a>(alloc: Global) -> Result<Command<'a>, AllocError>
    ensures { IfOk result (λ command. app_of command ≡ work_app) }
{
    file_command(
        alloc,
        "periodic",
        "Ends what is overdue in a shop's file, and serves its waiting list",
        "Example:\n  boxoffice periodic hall.db",
        SHOPS_FILE,
    )
}

// `report`, with its help.
fn report_command<'a>(alloc: Global) -> Result<Command<'a>, AllocError>
    ensures { IfOk result (λ command. app_of command ≡ report_app) }
{
    file_command(
        alloc,
        "report",
        "Prints what was sold in a shop's file, or who came in by a check-in list",
        "Example:\n  boxoffice report hall.db door --list 1",
        SHOPS_FILE,
    )?
    .arg(word(alloc, "report", "REPORT", "Which report: sales, or door"))?
    .arg(choice(
        alloc,
        "list",
        "N",
        "The number of the check-in list, for door",
    ))
}

// `export`, with its help.
fn export_command<'a>(alloc: Global) -> Result<Command<'a>, AllocError>
    ensures { IfOk result (λ command. app_of command ≡ export_app) }
{
    file_command(
        alloc,
        "export",
        "Prints the order positions of a shop's file as CSV",
        "Example:\n  boxoffice export hall.db > positions.csv",
        SHOPS_FILE,
    )
}

// `import-vouchers`, with its help.
fn import_command<'a>(alloc: Global) -> Result<Command<'a>, AllocError>
    ensures { IfOk result (λ command. app_of command ≡ import_app) }
{
    file_command(
        alloc,
        "import-vouchers",
        "Adds the vouchers of a CSV file to a shop's file, and says of each row what became of it",
        "Example:\n  boxoffice import-vouchers hall.db vouchers.csv",
        SHOPS_FILE,
    )?
    .arg(word(
        alloc,
        "csv",
        "CSV",
        "The CSV file, with a line of the columns' names and at most 100000 rows",
    ))
}

// `migrate`, with its help.
fn migrate_command<'a>(alloc: Global) -> Result<Command<'a>, AllocError>
    ensures { IfOk result (λ command. app_of command ≡ migrate_app) }
{
    file_command(
        alloc,
        "migrate",
        "Brings a shop's file to this program's version, and prints the version",
        "Example:\n  boxoffice migrate hall.db",
        SHOPS_FILE,
    )
}

// The program with one more command, where that was made.
fn with<'a>(
    program: Command<'a>,
    made: Result<Command<'a>, AllocError>,
) -> Result<Command<'a>, AllocError>
    ensures { IfOk result (λ command. IsWith (app_of program.entry) made.entry (app_of command)) }
{
    program.subcommand(made?)
}

// The commands of the program, with their help.
fn commands<'a>(alloc: Global) -> Result<Command<'a>, AllocError>
    ensures { IfOk result (λ command. app_of command ≡ program) }
{
    let bare = Command::new(alloc, "boxoffice")
        .about("A ticket shop for one event")
        .version(VERSION)
        .after_help("Example:\n  boxoffice init hall.db --organizer house --event hall")
        .subcommand_required(true);
    let program = with(bare, feed_command(alloc))?;
    let program = with(program, init_command(alloc))?;
    let program = with(program, token_command(alloc))?;
    let program = with(program, serve_command(alloc))?;
    let program = with(program, work_command(alloc))?;
    let program = with(program, report_command(alloc))?;
    let program = with(program, export_command(alloc))?;
    let program = with(program, import_command(alloc))?;
    with(program, migrate_command(alloc))
}

// Whether a word begins with a minus sign and a digit.
fn is_signed(word: &str) -> bool
    ensures { result ≡ is_signed word.now }
{
    matches!(word.as_bytes(), [b'-', b'0'..=b'9', ..])
}

// Whether a number follows the word: it is `--step`, `--connections` or `--list`.
fn takes_number(word: &str) -> bool
    ensures { result ≡ takes_number word.now }
{
    word == "--step" || word == "--connections" || word == "--list"
}

/// The words as they are read: behind `--step`, `--connections` and `--list` a number with a minus sign is the empty text, which is no number
/// either.
pub fn plain_words<'a>(alloc: Global, words: &'a [String]) -> Result<Vec<&'a str>, AllocError>
    ensures { IfOk result (λ all. texts all.items ≡ plain_words (map string_bytes words.now)) }
{
    let mut all = Vec::new(alloc);
    let mut is_number = false;
    for word in words {
        let text = word.as_str();
        all.push(if is_number && is_signed(text) {
            ""
        } else {
            text
        })?;
        is_number = takes_number(text);
    }
    Ok(all)
}

// The text of an argument, if it is there.
fn given<'a>(matches: &ArgMatches<'a>, name: &str) -> Option<&'a str>
    ensures { option_map (λ t. t.now) result ≡ first_of name.now (rows_of (found_of matches.now)) }
{
    matches.get_str(name)
}

// The text of an argument, which is empty where there is none.
fn text_of<'a>(matches: &ArgMatches<'a>, name: &str) -> &'a str
    ensures { result.now ≡ text_of name.now (rows_of (found_of matches.now)) }
{
    match matches.get_str(name) {
        Some(text) => text,
        None => "",
    }
}

// Whether a flag without a text is there.
fn is_set(matches: &ArgMatches<'_>, name: &str) -> bool
    ensures { result ≡ is_set name.now (rows_of (found_of matches.now)) }
{
    match given(matches, name) {
        Some(text) => text == "true",
        None => false,
    }
}

// The file of a line that names one alone.
fn file_of<'a>(matches: &ArgMatches<'a>) -> FileLine<'a>
    ensures { result.file.now ≡ text_of (codes "file") (rows_of (found_of matches.now)) }
{
    FileLine {
        file: text_of(matches, "file"),
    }
}

// What a command with these matches asks for that names a file alone, or none.
fn few_words_of<'a>(command: &str, matches: &ArgMatches<'a>) -> Line<'a>
    ensures { asked_by_line result ≡ asked_of_few command.now (rows_of (found_of matches.now)) }
{
    if command == "periodic" {
        return Line::Periodic(file_of(matches));
    }
    if command == "export" {
        return Line::Export(file_of(matches));
    }
    if command == "migrate" {
        return Line::Migrate(file_of(matches));
    }
    Line::Feed(FeedLine {
        from: text_of(matches, "from"),
        step: text_of(matches, "step"),
    })
}

// What a command with these matches asks for.
fn line_of<'a>(command: &str, matches: &ArgMatches<'a>) -> Line<'a>
    ensures { asked_by_line result ≡ asked_of command.now (rows_of (found_of matches.now)) }
{
    if command == "init" {
        return Line::Init(InitLine {
            file: text_of(matches, "file"),
            organizer: text_of(matches, "organizer"),
            event: text_of(matches, "event"),
        });
    }
    if command == "token-add" {
        return Line::TokenAdd(TokenLine {
            file: text_of(matches, "file"),
            token: text_of(matches, "token"),
        });
    }
    if command == "serve" {
        return Line::Serve(ServeLine {
            file: text_of(matches, "file"),
            listen: text_of(matches, "listen"),
            connections: given(matches, "connections"),
            log: is_set(matches, "log"),
        });
    }
    if command == "report" {
        return Line::Report(ReportLine {
            file: text_of(matches, "file"),
            report: text_of(matches, "report"),
            list: given(matches, "list"),
        });
    }
    if command == "import-vouchers" {
        return Line::Import(ImportLine {
            file: text_of(matches, "file"),
            csv: text_of(matches, "csv"),
        });
    }
    few_words_of(command, matches)
}

/// Reads a command line, whose first word is the program.
pub fn read_line<'a>(alloc: Global, words: &'a [&'a str]) -> Result<Line<'a>, Error>
    ensures ok { IfOk result (λ line. asked_for (texts words.now) ≡ asked_by_line line) }
    ensures err { IfErr result (λ error. IsReason (asked_for (texts words.now)) (kind_of error)) }
{
    let matches = commands(alloc)?.try_get_matches_from(words)?;
    match matches.subcommand() {
        Some((command, found)) => Ok(line_of(command, found)),
        None => Ok(Line::Feed(FeedLine { from: "", step: "" })),
    }
}
