//! Shops' files on the disk, by their names.

ghost use Rattle.std.specs.Prelude.{⊤, IsTrue};
ghost use Rattle.app_files.specs.Shelved.{is_csv_fault, is_shelf_fault};

use crate::looks::{is_strange, make_private};
use app_files::Shelf;
use base_values::Body;
use sqlite::{Connection, Error, ErrorCode, File, FileStore};
use std::os::unix::fs::MetadataExt;
use std::{fs, io};
use web_cli::{Console, RunFault};

// A file of so many bytes takes about a second to open.
const LARGE: u64 = 10_000_000;

/// The files of this machine.
#[derive(Clone, Copy)]
pub(crate) struct HostFiles<'a> {
    pub(crate) rt: &'a HostRuntime,
}

// Why the file of this name can't be opened: it has a second name, which the store refuses, or whatever else.
fn unopenable(rt: &HostRuntime, file: &str) -> RunFault
    ensures { IsTrue (is_shelf_fault result) }
{
    match fs::metadata(rt, file) {
        Ok(found) if found.is_file() && found.nlink() > 1 => RunFault::Linked,
        _ => RunFault::File,
    }
}

// Why the store doesn't open the file of this name, as the program tells it.
fn unopened(rt: &HostRuntime, file: &str, error: Error) -> RunFault
    ensures { IsTrue (is_shelf_fault result) }
{
    match error {
        Error::SqliteFailure(ErrorCode::OutOfMemory) => RunFault::Memory,
        Error::SqliteFailure(ErrorCode::CannotOpen) => unopenable(rt, file),
        Error::SqliteFailure(ErrorCode::NotADatabase) => RunFault::NotAShop,
        _ => RunFault::Store,
    }
}

// Why the bytes of a voucher file can't be had, as the program tells it.
fn unread(error: io::Error) -> RunFault
    ensures { IsTrue (is_csv_fault result) }
{
    match error.kind() {
        io::ErrorKind::OutOfMemory => RunFault::Memory,
        _ => RunFault::CsvFile,
    }
}

// Says on a terminal that a large file is opened: the store looks at all of it before it gives a row, and tells nothing meanwhile.
fn tell_opening(rt: &HostRuntime, file: &str, size: u64) {
    if size >= LARGE && rt.has_reader() {
        let megabytes = size / 1_000_000;
        let _ = eprintln!(rt; "boxoffice: opening {file}, {megabytes} MB");
    }
}

impl Shelf<Connection<FileStore<File>>> for HostFiles<'_> {
    ghost stood = { λ _ _. ⊤ };

    ghost held = { λ _ _. ⊤ };

    ghost gives = { λ _ _. ⊤ };

    ghost refuses = { λ _ _. ⊤ };

    fn stands(&self, file: &str) -> bool {
        fs::symlink_metadata(self.rt, file).is_ok()
    }

    fn open(&self, file: &str) -> Result<Connection<FileStore<File>>, RunFault> {
        match fs::metadata(self.rt, file) {
            Ok(found) if found.is_file() && is_strange(self.rt, file) => {
                return Err(RunFault::NotAShop);
            }
            Ok(found) => tell_opening(self.rt, file, found.len()),
            Err(_) => make_private(self.rt, file),
        }
        match Connection::open(self.rt, file) {
            Ok(connection) => Ok(connection),
            Err(error) => Err(unopened(self.rt, file, error)),
        }
    }

    fn bytes(&self, file: &str) -> Result<Body, RunFault> {
        match fs::read(self.rt, file) {
            Ok(bytes) => Ok(Body::new(bytes)),
            Err(error) => Err(unread(error)),
        }
    }

    // What was committed stands in the file and its log, also where closing fails.
    fn close(&self, connection: Connection<FileStore<File>>) {
        let _ = connection.close();
    }
}
