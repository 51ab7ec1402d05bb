//! A report on the shop in a database.

ghost use Rattle.std.specs.Prelude.{◌≡◌, ℕ, IfOk};
ghost use Rattle.app_files.specs.Came.{CameTo, OrUnopened};
ghost use Rattle.model_rows.specs.Lists.{Lists};
ghost use Rattle.app_files.specs.Reported.{IsOpenedAndReported, IsReport, version_text};

use crate::filed::{Filed, Opened, connection_of};
use crate::opening::open_shop;
use crate::words::append_count;
use base_values::Body;
use book_usage::{Book, Dues};
use office_reports::{door_text, sales_text};
use sqlite::{Alter, Connection};
use std::alloc::{AllocError, Global};
use web_cli::{Console, Report, RunFault};
use web_handler::Office;

// The report on a check-in list of an office.
fn door_of<B: Book>(alloc: Global, office: &Office<B>, list: u64) -> Result<Body, RunFault>
    ensures { (version : ℕ) → IsReport (Report.Door list) version office.now.state.lists result }
{
    match door_text(office.book(), alloc, list) {
        Ok(Some(text)) => Ok(text),
        Ok(None) => Err(RunFault::NoList),
        Err(_) => Err(RunFault::Memory),
    }
}

// The report on what was sold by an office.
fn sales_of<B: Book>(alloc: Global, office: &Office<B>) -> Result<Body, RunFault>
    ensures { (version : ℕ) → IsReport Report.Sales version office.now.state.lists result }
{
    match sales_text(office.book(), alloc) {
        Ok(text) => Ok(text),
        Err(_) => Err(RunFault::Memory),
    }
}

// The line that tells the version of tables.
fn version_text(alloc: Global, version: u64) -> Result<Vec<u8>, AllocError>
    ensures { IfOk result (λ text. text.items ≡ version_text version) }
{
    let mut text = Vec::new(alloc);
    append_count(&mut text, "version ", version)?;
    text.push(b'\n')?;
    Ok(text)
}

/// The version of tables.
pub(crate) fn version_of(alloc: Global, version: u64) -> Result<Body, RunFault>
    ensures { (lists : Lists) → IsReport Report.Version version lists result }
{
    match version_text(alloc, version) {
        Ok(text) => Ok(Body::new(text)),
        Err(_) => Err(RunFault::Memory),
    }
}

// A report on a shop that was opened.
fn report_opened<S: Alter + Drop, B: Dues + Drop>(
    alloc: Global,
    report: Report,
    opened: Opened<S, B>,
) -> Filed<S, Body>
    ensures told { IsReport report opened.tables.head.version opened.office.state.lists
        result.outcome }
    ensures connection { result.connection ≡ opened.tables.connection }
{
    let outcome = match report {
        Report::Sales => sales_of(alloc, &opened.office),
        Report::Door(list) => door_of(alloc, &opened.office, list),
        Report::Version => version_of(alloc, opened.tables.head.version),
    };
    Filed {
        connection: connection_of(opened),
        outcome,
    }
}

/// `report`: opens the shop in a database, and tells what was sold, item by item, or who came in by a check-in list, as a text. Faults:
/// 60, 61 and 62 where the database holds no shop that is whole, each for its cause alone, 50 where it has no list of that number, 63 and 6.
/// Nothing has changed in the database.
pub fn report_shop<O: Console, S: Alter + Drop>(
    rt: &O,
    alloc: Global,
    connection: Connection<S>,
    report: Report,
) -> Filed<S, Body>
    ensures { CameTo S.Store (OrUnopened S.Store (IsOpenedAndReported S.Store report))
        connection result }
{
    match open_shop(rt, alloc, connection) {
        Ok(opened) => report_opened(alloc, report, opened),
        Err(filed) => filed,
    }
}
