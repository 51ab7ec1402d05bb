//! What is done with a shop's file, and what is told of it.

use crate::clock::{Shown, at};
use crate::shop::{Answered, answer_opened};
use app_files::migrating::migrate_shop;
use app_files::{Filed, add_shop_token, fault_of_opening, import_shop, make_new_shop, report_shop};
use base_values::{Body, Slug};
use file_open::open_file;
use file_scan::Quiet;
use file_tables::HandedBack;
use sqlite::{Alter, Connection};
use std::alloc::{AllocError, Global};
use std::io::Write;
use tests_crashes::{Acted, Acts, Deed, TrialError};
use web_cli::{Advice, Report, RunFault};

// What is told of a fault, as a person reads it.
fn told_fault(alloc: Global, fault: RunFault) -> Result<Vec<u8>, TrialError> {
    let mut text = Vec::new(alloc);
    let advice = Advice(fault);
    writeln!(text, "fault {fault}: {advice}")?;
    Ok(text)
}

// What is told of a command that tells a text.
fn told_text(alloc: Global, outcome: Result<Body, RunFault>) -> Result<Vec<u8>, TrialError> {
    match outcome {
        Ok(body) => Ok(body.as_slice().to_vec(alloc)?),
        Err(fault) => told_fault(alloc, fault),
    }
}

// What is told of a new shop.
fn told_shop(alloc: Global, outcome: Result<(), RunFault>) -> Result<Vec<u8>, TrialError> {
    match outcome {
        Ok(()) => Ok(b"made\n".to_vec(alloc)?),
        Err(fault) => told_fault(alloc, fault),
    }
}

// What is told of a token's number.
fn told_number(alloc: Global, number: u64) -> Result<Vec<u8>, TrialError> {
    let mut text = Vec::new(alloc);
    writeln!(text, "token {number}")?;
    Ok(text)
}

// What is told of a token.
fn told_token(alloc: Global, outcome: Result<u64, RunFault>) -> Result<Vec<u8>, TrialError> {
    match outcome {
        Ok(number) => told_number(alloc, number),
        Err(fault) => told_fault(alloc, fault),
    }
}

// What is told of a case.
fn told_case(answered: anyhow::Result<Vec<u8>>) -> Result<Vec<u8>, TrialError> {
    match answered {
        Ok(text) => Ok(text),
        Err(_) => Err(TrialError::Undone),
    }
}

// Answers the requests of a case, over the file that is opened once.
fn answer<S: Alter + Drop>(alloc: Global, connection: Connection<S>, case: &str) -> Acted<S> {
    match open_file(alloc, connection, &mut Quiet) {
        Ok(opened) => {
            let Answered { tables, told } = answer_opened(alloc, case.as_bytes(), opened);
            Acted {
                connection: tables.into_connection(),
                told: told_case(told),
            }
        }
        Err(HandedBack { connection, error }) => Acted {
            connection,
            told: told_fault(alloc, fault_of_opening(error)),
        },
    }
}

// The names of the organizer and of the event.
#[tactic(auto, unfolding(base_values::specs::Slugs::is_slug))]
fn names(alloc: Global) -> Result<(Slug, Slug), AllocError> {
    Ok((
        Slug::copy_of(alloc, "house")?,
        Slug::copy_of(alloc, "hall")?,
    ))
}

// Makes a shop of these names.
fn make<S: Alter + Drop>(
    alloc: Global,
    connection: Connection<S>,
    names: Result<(Slug, Slug), AllocError>,
) -> Acted<S> {
    match names {
        Ok((organizer, event)) => {
            let Filed {
                connection,
                outcome,
            } = make_new_shop(alloc, connection, organizer, event);
            Acted {
                connection,
                told: told_shop(alloc, outcome),
            }
        }
        Err(_) => Acted {
            connection,
            told: Err(TrialError::Memory),
        },
    }
}

// The system of each deed: 10:00 on 1 May 2026.
fn system() -> Shown {
    at(1_777_629_600)
}

// Adds a token.
fn add_token<S: Alter + Drop>(alloc: Global, connection: Connection<S>, token: &str) -> Acted<S> {
    let Filed {
        connection,
        outcome,
    } = add_shop_token(&system(), alloc, connection, token);
    Acted {
        connection,
        told: told_token(alloc, outcome),
    }
}

// The bytes of a CSV file.
fn source(alloc: Global, csv: &str) -> Result<Body, RunFault> {
    match csv.as_bytes().to_vec(alloc) {
        Ok(bytes) => Ok(Body::new(bytes)),
        Err(_) => Err(RunFault::Memory),
    }
}

// Adds the vouchers of a CSV file.
fn import<S: Alter + Drop>(alloc: Global, connection: Connection<S>, csv: &str) -> Acted<S> {
    let Filed {
        connection,
        outcome,
    } = import_shop(&system(), alloc, connection, source(alloc, csv));
    Acted {
        connection,
        told: told_text(alloc, outcome),
    }
}

// Tells a report.
fn report<S: Alter + Drop>(alloc: Global, connection: Connection<S>, report: Report) -> Acted<S> {
    let Filed {
        connection,
        outcome,
    } = report_shop(&system(), alloc, connection, report);
    Acted {
        connection,
        told: told_text(alloc, outcome),
    }
}

// Brings the shop to this program's version.
fn migrate<S: Alter + Drop>(alloc: Global, connection: Connection<S>) -> Acted<S> {
    let Filed {
        connection,
        outcome,
    } = migrate_shop(&system(), alloc, connection);
    Acted {
        connection,
        told: told_text(alloc, outcome),
    }
}

// Runs statements through a connection that knows nothing of shops.
fn execute<S: Alter + Drop>(
    alloc: Global,
    mut connection: Connection<S>,
    statements: &str,
) -> Acted<S> {
    let told = match connection.execute_batch(statements) {
        Ok(()) => Ok(Vec::new(alloc)),
        Err(_) => Err(TrialError::Undone),
    };
    Acted { connection, told }
}

/// What does deeds with a shop.
#[derive(Clone, Copy)]
pub(crate) struct Clerk;

impl Acts for Clerk {
    fn act<S: Alter + Drop>(
        &self,
        alloc: Global,
        connection: Connection<S>,
        deed: &Deed<'_>,
    ) -> Acted<S> {
        match deed.verb {
            "init" => make(alloc, connection, names(alloc)),
            "token" => add_token(alloc, connection, deed.word),
            "requests" => answer(alloc, connection, deed.text),
            "import" => import(alloc, connection, deed.text),
            "sales" => report(alloc, connection, Report::Sales),
            "door" => report(alloc, connection, Report::Door(1)),
            "migrate" => migrate(alloc, connection),
            "rows" => execute(alloc, connection, deed.text),
            "spoil" => execute(alloc, connection, deed.word),
            _ => report(alloc, connection, Report::Version),
        }
    }
}
